// The sheets of the working folder, as they were when the run began.
ghost use Rattle.std.specs.Prelude.{◌≡◌};
ghost use Rattle.command.specs.Files.{file_of, lent};

use calculator::register::RegisterNumber;

/// What the file of each register holds; none where there is no such file.
// A Vec: every register has a place, and the host fills it file by file, as it reads; an array of what is not Copy would be filled at once.
#[derive(Drop)]
pub struct Files {
    pub sheets: Vec<Option<Vec<u8>>>,
}

impl Files {
    /// What the file of register k holds.
    pub fn sheet(&self, k: RegisterNumber) -> Option<&[u8]>
        ensures { lent result ≡ file_of self.now k.number.value }
    {
        self.sheets.get(usize::from(k))?.as_deref()
    }
}

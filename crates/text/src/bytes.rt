// What each byte is to a text of numbers.
ghost use Rattle.std.specs.Prelude.{◌≡◌};

#[derive(Clone, Copy, Debug, PartialEq, Eq)]
pub enum Kind {
    Separator,
    LineFeed,
    Minus,
    Digit,
    Other,
}

impl From<u8> for Kind {
    ghost use Rattle.text.specs.Bytes.{kind};

    ghost from_gives = { λ b r. r ≡ kind b };

    fn from(b: u8) -> Kind {
        match b {
            b' ' | b'\t' | b'\r' => Kind::Separator,
            b'\n' => Kind::LineFeed,
            b'-' => Kind::Minus,
            b'0'..=b'9' => Kind::Digit,
            _ => Kind::Other,
        }
    }
}

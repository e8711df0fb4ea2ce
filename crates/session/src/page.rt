// The bytes to give for a line.
ghost use Rattle.session.specs.Page.{SheetsFit, ReportsFit};

/// Enough for the text of any line with 64 places a register: 12 bytes, and 150 for each cube.
pub const PAGE_BYTES: usize = 12 + 150 * 64;

/// With a page of that size no line is refused with 8.
#[tactic(auto, using(crate::proofs::Pages::sheets_fit, crate::proofs::Pages::reports_fit))]
pub fn page_is_enough()
    ensures sheets { SheetsFit PAGE_BYTES }
    ensures reports { ReportsFit PAGE_BYTES }
{}

// A book on a page: it reads and edits the caller's bytes directly.
#![tactic(auto)]

ghost use Rattle.std.specs.Prelude.{◌≡◌, ℕ, false, Decides};
ghost use Rattle.page.specs.Checked.{SomePage};
ghost use Rattle.page.specs.Faults.{Refused};
ghost use Rattle.pagebook.specs.PageBooks.{page_meaning, Opened};

mod counts;
mod edits;
mod fields;
mod lines;
mod lists;
mod questions;

#[derive(Drop)]
pub struct PageBook<'a> {
    bytes: &'a mut [u8],
    // Whether the bytes were a page when the book was opened; one that is not open is the empty book. The flag stands beside
    // the bytes, since those of a refused page stay lent to the book too.
    open: bool,
}

// Whether the bytes are a page that can be read.
fn is_page(bytes: &[u8]) -> bool
    ensures page { Decides result (SomePage bytes.now) }
    ensures refused { (line column : ℕ) → Refused bytes.now line column → result ≡ false }
{
    page::check(bytes).is_ok()
}

impl<'a> PageBook<'a> {
    // A book over the bytes. Over bytes that are no page it is the empty book.
    pub fn open(bytes: &'a mut [u8]) -> PageBook<'a>
        ensures bytes { result.bytes.now ≡ bytes.old }
        ensures there { result.bytes.ghost_name ≡ bytes.entry.ghost_name }
        ensures means { Opened bytes.old (page_meaning result) }
        ensures shut { (line column : ℕ) → Refused bytes.old line column → result.«open» ≡ false }
    {
        let open = is_page(bytes);
        PageBook { bytes, open }
    }
}

// The reader: the lent file, and a place in it. Each function takes it apart and leaves the work to one on the file and the place.
ghost use Rattle.std.specs.Prelude.{◌≡◌};
ghost use Rattle.reader.specs.Walk.{Opens, ended, spanned, handed, past};
ghost use Rattle.reader.specs.Spans.{definition_span};

use crate::places::{bytes_at, ended_at, place_past, span_at, start_of};
use faults::FileError;
use files::check_file;

#[derive(Clone, Copy)]
pub struct Reader<'a> {
    file: &'a [u8],
    place: usize,
}

// A reader of a file, and what the check of the whole file said. Where the file is refused the reader is at its end.
#[derive(Clone, Copy)]
pub struct Opened<'a> {
    pub reader: Reader<'a>,
    pub checked: Result<u32, FileError>,
}

pub fn open<'a>(file: &'a [u8]) -> Opened<'a>
    ensures { Opens file.entry result }
{
    let checked = check_file(file);
    let place = start_of(file, checked);
    let reader = Reader { file, place };
    Opened { reader, checked }
}

impl<'a> Reader<'a> {
    // No definition is left.
    pub fn at_end(self) -> bool
        ensures { result ≡ ended self.entry }
    {
        ended_at(self.file, self.place)
    }

    // Where the next definition starts and ends.
    pub fn span(self) -> Option<(usize, usize)>
        ensures { result ≡ spanned self.entry }
    {
        span_at(self.file, self.place)
    }

    // The next definition, a part of the lent file.
    pub fn definition(self) -> &'a [u8]
        ensures { result.now ≡ handed self.entry }
    {
        bytes_at(self.file, self.place)
    }

    // The reader past so many definitions.
    pub fn skip(self, count: u32) -> Reader<'a>
        ensures { result ≡ past count self.entry }
    {
        let place = place_past(self.file, self.place, count);
        Reader { place, ..self }
    }
}

// Where the definition of a number starts and ends, in a file that is accepted and has as many.
pub fn definition_span(file: &[u8], index: u32) -> Option<(usize, usize)>
    ensures { result ≡ definition_span file.now index }
{
    open(file).reader.skip(index).span()
}

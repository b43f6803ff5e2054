// One argument of the reply: its tag, its size, its bytes.
ghost use Rattle.std.specs.Prelude.{ℕ, ◌+◌, ◌≤◌, List, ◌≡◌, length};
ghost use Rattle.osc.specs.Message.{tag_of, padded};
ghost use Rattle.words.specs.Parts.{over};
ghost use Rattle.treequery.specs.Pieces.{piece_argument, piece_bytes, mapped_text, most_bytes, PieceSize, Puts, MappedRoom};

use fields::part;
use osc::{decimal_length, padded_length, put_byte, put_decimal, put_int, put_padded, put_zeros};

// An integer; a float; a name, a part of a definition's bytes; 'c' and the decimal bus.
#[derive(Clone, Copy)]
pub enum Piece {
    Whole(u32),
    Pattern(u32),
    Part(usize, usize),
    Mapped(u32),
}

// The tag: i, f or s.
pub fn piece_tag(piece: Piece) -> u8
    ensures { (s : List ℕ) → result ≡ tag_of (piece_argument s piece) }
{
    match piece {
        Piece::Whole(_) => 105,
        Piece::Pattern(_) => 102,
        Piece::Part(..) | Piece::Mapped(_) => 115,
    }
}

// How many bytes it has.
pub fn piece_size(definition: &[u8], piece: Piece) -> usize
    requires { length definition.now ≤ most_bytes }
    ensures { PieceSize definition.now piece result }
{
    match piece {
        Piece::Whole(_) | Piece::Pattern(_) => 4,
        Piece::Part(start, end) => padded_length(part(definition, start, end).len()),
        Piece::Mapped(bus) => padded_length(1 + decimal_length(bus)),
    }
}

// 'c' and the decimal bus, as a string.
fn put_mapped(out: &mut [u8], at: usize, bus: u32)
    requires { MappedRoom bus at out.old }
    ensures { out.new ≡ over at (padded (mapped_text bus)) out.old }
{
    let digits = decimal_length(bus);
    put_byte(out, at, 99);
    put_decimal(out, at + 1, bus);
    put_zeros(out, at + 1 + digits, 4 - (1 + digits) % 4);
}

// Its bytes, at a place.
pub fn put_piece(out: &mut [u8], at: usize, definition: &[u8], piece: Piece)
    requires { Puts definition.now piece at out.old }
    ensures { out.new ≡ over at (piece_bytes definition.now piece) out.old }
{
    match piece {
        Piece::Whole(word) | Piece::Pattern(word) => put_int(out, at, word),
        Piece::Part(start, end) => put_padded(out, at, part(definition, start, end)),
        Piece::Mapped(bus) => put_mapped(out, at, bus),
    }
}

// Where the next tag and the next argument go, and one argument more: counted, or written.
ghost use Rattle.std.specs.Prelude.{ℕ, [], ◌∷◌};
ghost use Rattle.osc.specs.Message.{int};
ghost use Rattle.treequery.specs.Pieces.{piece_argument};
ghost use Rattle.treequery.specs.Counting.{Counts, Counted, CountsPiece};
ghost use Rattle.treequery.specs.Writing.{Room, Wrote, PutsPiece};

use crate::piece::{Piece, piece_size, piece_tag, put_piece};
use osc::{put_byte, put_int};

// The place of the next tag, and of the next argument's first byte.
#[derive(Clone, Copy)]
pub struct Places {
    pub tag: usize,
    pub byte: usize,
}

// Two integers counted.
pub fn count_pair(places: Places) -> Places
    requires { Counts (int 0 ∷ (int 0 ∷ [])) places }
    ensures { (m n : ℕ) → Counted (int m ∷ (int n ∷ [])) places result }
{
    Places {
        tag: places.tag + 2,
        byte: places.byte + 8,
    }
}

// An argument counted.
pub fn count_piece(places: Places, definition: &[u8], piece: Piece) -> Places
    requires { CountsPiece definition.now piece places }
    ensures { Counted (piece_argument definition.now piece ∷ []) places result }
{
    let size = piece_size(definition, piece);
    Places {
        tag: places.tag + 1,
        byte: places.byte + size,
    }
}

// Two integers written.
pub fn put_pair(out: &mut [u8], places: Places, first: u32, second: u32) -> Places
    requires { Room places (int first ∷ (int second ∷ [])) out.old }
    ensures { Wrote places (int first ∷ (int second ∷ [])) out.old result out.new }
{
    let tag = places.tag;
    let byte = places.byte;
    put_byte(out, tag, 105);
    put_byte(out, tag + 1, 105);
    put_int(out, byte, first);
    put_int(out, byte + 4, second);
    Places {
        tag: tag + 2,
        byte: byte + 8,
    }
}

// An argument written.
pub fn put_argument(out: &mut [u8], places: Places, definition: &[u8], piece: Piece) -> Places
    requires { PutsPiece definition.now piece places out.old }
    ensures { Wrote places (piece_argument definition.now piece ∷ []) out.old result out.new }
{
    let tag = places.tag;
    let byte = places.byte;
    let size = piece_size(definition, piece);
    put_byte(out, tag, piece_tag(piece));
    put_piece(out, byte, definition, piece);
    Places {
        tag: tag + 1,
        byte: byte + size,
    }
}

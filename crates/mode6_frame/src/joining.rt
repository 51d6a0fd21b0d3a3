ghost use Rattle.std.specs.Prelude.{◌≡◌, IfOk};
ghost use Rattle.std.specs.Option.{is_some, option_copied};
ghost use Rattle.mode6_frame.specs.Groups.{first_status, joined, made_of, piece_at};

use crate::groups::{Piece, Step};
use edge_traits::Text;
use std::alloc::{AllocError, Global};

/// What the fragments of an answer make. No text is copied before they are all there.
pub(crate) fn made(alloc: Global, pieces: &[Piece]) -> Result<Step, AllocError>
    ensures { IfOk result
        (λ step. step ≡ made_of (first_status pieces.now) (joined pieces.now)) }
{
    if !are_all_there(pieces) {
        return Ok(Step::Waiting);
    }
    let text = match join(alloc, pieces)? {
        None => return Ok(Step::Waiting),
        Some(text) => text,
    };
    match find_piece(pieces, 0) {
        None => Ok(Step::Waiting),
        Some(first) => Ok(Step::Whole {
            status: first.status,
            text,
        }),
    }
}

/// Whether the fragments of an answer stand end to end from its first octet to its last.
fn are_all_there(pieces: &[Piece]) -> bool
    ensures { result ≡ is_some (joined pieces.now) }
{
    let mut place: u128 = 0;
    for _done in 0..pieces.len() {
        match find_piece(pieces, place) {
            None => return false,
            Some(piece) => {
                if !piece.more {
                    return true;
                }
                place += piece.span as u128;
            }
        }
    }
    false
}

/// The text of an answer, where its fragments are all there.
fn join(alloc: Global, pieces: &[Piece]) -> Result<Option<Text>, AllocError>
    ensures { IfOk result (λ text. text ≡ joined pieces.now) }
{
    let mut text = Vec::new(alloc);
    let mut place: u128 = 0;
    for _done in 0..pieces.len() {
        match find_piece(pieces, place) {
            None => return Ok(None),
            Some(piece) => {
                text.extend_from_slice(piece.text.as_slice())?;
                if !piece.more {
                    return Ok(Some(Text::of(text)));
                }
                place += piece.span as u128;
            }
        }
    }
    Ok(None)
}

/// The fragment whose first octet is at this place of its answer.
pub(crate) fn find_piece(pieces: &[Piece], place: u128) -> Option<&Piece>
    ensures { option_copied result ≡ piece_at place pieces.now }
{
    for i in 0..pieces.len() {
        let piece = &pieces[i];
        if u128::from(piece.offset) == place {
            return Some(piece);
        }
    }
    None
}

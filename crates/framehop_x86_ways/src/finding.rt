//! The first way out of a function from a place.
ghost use Rattle.std.specs.Prelude.{◌≡◌, map, IfSome};
ghost use Rattle.std.specs.Option.{option_map};
ghost use Rattle.framehop_x86_ways.specs.FirstWay.{way_in};
ghost use Rattle.framehop_x86_ways.specs.Ways.{IsWay};

use crate::executed::Executed;
use crate::search::{MOST, Search};
use arrayvec::ArrayVec;
use framehop_ways::Bounds;

/// The first way out of a function from a place of a text, of at most 128 instructions: a branch is followed once all is tried
/// that comes if it isn't taken, and no place is tried twice. The last instruction leaves the function.
pub fn first_way(text: &[u8], bounds: Bounds, at: usize) -> Option<ArrayVec<Executed, MOST>>
    ensures first { option_map (λ way. way.items) result ≡ way_in MOST text.now bounds at }
    ensures way { IfSome result (λ way. IsWay text.now bounds at way.items) }
{
    let mut search = Search::begin(at);
    for turns in 0..MOST {
        if search.turn(text, bounds) {
            return Some(search.path);
        }
    }
    None
}

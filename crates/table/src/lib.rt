// A lent table of call records: the live record of a reference, the lowest free place, and whether all is sound;
// numbers 21 to 25.
#![tactic(auto)]

ghost use Rattle.std.specs.Prelude.{◌≡◌, get_or, not, ◌&&◌};
ghost use Rattle.call.specs.Sound.{fresh_call, sound_of};
ghost use Rattle.phases.specs.Phase.{live_of};
ghost use Rattle.table.specs.Table.{find_from, place_from, held_in, calls_sound, table_sound};

use call::Call;

pub mod choice;
pub mod plan;
pub mod settle;
pub mod step;
pub mod verdict;

// Records that a table has at most.
const GREATEST_TABLE: usize = 32;

// The record at a place; a fresh one where the table has none.
pub(crate) fn call_at(t: &[Call], i: usize) -> Call
    ensures { result ≡ get_or t.now i fresh_call }
{
    t.get(i).copied().unwrap_or(Call::fresh())
}

// The first live record of a reference.
pub(crate) fn find(t: &[Call], reference: u16) -> Option<usize>
    ensures { result ≡ find_from t.now 0 reference }
{
    t.iter().position(|c| c.live() && c.reference == reference)
}

// The lowest free place.
pub(crate) fn place(t: &[Call]) -> Option<usize>
    ensures { result ≡ place_from t.now 0 }
{
    t.iter().position(|c| !c.live())
}

// Whether a record is sound, and no later one is live and of its reference if it is live.
#[tactic(auto, using(crate::proofs::Searched::at_held))]
fn alone(c: Call, later: &[Call]) -> bool
    ensures { result ≡ sound_of c && not (live_of c.phase && held_in later.now c.reference) }
{
    c.sound() && !(c.live() && find(later, c.reference).is_some())
}

// No two live records of one reference, and every live one sound.
fn calls_sound(t: &[Call]) -> bool
    ensures { result ≡ calls_sound t.now }
{
    let mut rest = t;
    while let Some((c, later)) = rest.split_first() {
        if !alone(*c, later) {
            return false;
        }
        rest = later;
    }
    true
}

// Not over 32 records, no two live ones of one reference, and every live one sound.
#[tactic(auto, unfolding(crate::specs::Table::table_sound))]
pub(crate) fn sound(t: &[Call]) -> bool
    ensures { result ≡ table_sound t.now }
{
    t.len() <= GREATEST_TABLE && calls_sound(t)
}

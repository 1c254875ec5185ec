//! The heads of the two areas.

ghost use Rattle.std.specs.Prelude.{◌≡◌, ◌≤◌, ◌^◌, ℕ, List, not, true, false, MatchOption, IfSome, Some, None};
ghost use Rattle.voice_units.specs.declared.shapes.Shape.{Shape};
ghost use Rattle.disk_areas.specs.Numbers.{number_at};
ghost use Rattle.disk_areas.specs.Areas.{is_head, current_head};
ghost use Rattle.voice_journal.specs.Places.{area_start};
ghost use Rattle.voice_journal.specs.Parsed.{HasHeads, head_of, IsOther};

use disk_areas::read_8;

// The current area, its epoch, and whether the other area's head is closed.
#[derive(Clone, Copy)]
pub struct Current {
    pub second: bool,
    pub epoch: u64,
    pub is_closed: bool,
}

// The epoch of a head of 16 bytes, where it counts.
fn head_epoch(bytes: &[u8; 16]) -> Option<u64>
    ensures value { MatchOption result (is_head bytes.now 0 ≡ false) (λ epoch. (is_head bytes.now 0 ≡ true) × (epoch ≡ number_at 8 8 bytes.now)) }
    ensures most { IfSome result (λ epoch. epoch ≤ 2 ^ 48) }
{
    if bytes[0] != 1 {
        return None;
    }
    let epoch = read_8(bytes, 8);
    if epoch < 1 {
        return None;
    }
    if epoch > 1 << 48 {
        return None;
    }
    Some(epoch)
}

// Which of two heads is current.
pub fn choose(first: &[u8; 16], second: &[u8; 16]) -> Option<Current>
    ensures current { MatchOption result
        ((shape : Shape) (image : List ℕ) → HasHeads shape first.now second.now image → current_head shape image ≡ None)
        (λ x. (shape : Shape) (image : List ℕ) → HasHeads shape first.now second.now image → current_head shape image ≡ Some (head_of shape x.second x.epoch)) }
    ensures other { IfSome result (λ x. (shape : Shape) (image : List ℕ) → HasHeads shape first.now second.now image → IsOther x.is_closed (area_start shape (not x.second)) image x.epoch) }
    ensures most { IfSome result (λ x. x.epoch ≤ 2 ^ 48) }
{
    match (head_epoch(first), head_epoch(second)) {
        (Some(a), Some(b)) => {
            if a == b {
                return None;
            }
            let newer = a < b;
            Some(Current {
                second: newer,
                epoch: if newer { b } else { a },
                is_closed: false,
            })
        }
        (Some(a), None) => Some(Current {
            second: false,
            epoch: a,
            is_closed: second[0] != 1,
        }),
        (None, Some(b)) => Some(Current {
            second: true,
            epoch: b,
            is_closed: first[0] != 1,
        }),
        (None, None) => None,
    }
}

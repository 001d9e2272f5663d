// The lookup in the loaded tables: a lane by its number.
#![tactic(auto)]

ghost use Rattle.std.specs.Prelude.{◌≡◌, ◌*◌, ◌≤◌, ◌<◌, IfSome, length, unwrap_or};
ghost use Rattle.plan_find.specs.FirstRow.{first_row, is_lane, FirstOf};

use plan_format::LaneId;

// The row of the lane among the first `count` rows.
pub fn find_lane(id: LaneId, lanes: &[usize], count: usize) -> Option<usize>
    requires { (6 * count ≤ length lanes.now) × (count ≤ 256) }
    ensures found { FirstOf (is_lane lanes.now id.0) count result }
    ensures within { IfSome result (λ i. i < count) }
    ensures row { unwrap_or result 256 ≡ first_row (is_lane lanes.now id.0) count 0 256 }
{
    (0..count).position(|i| lanes[6 * i] == id.0)
}

//! Labels that are made anew.
ghost use Rattle.std.specs.Prelude.{◌≡◌, ℕ, ◌+◌, ◌^◌, ◌<◌, ◌≤◌, List, ◌++◌, length, slice_index, Some};
ghost use Rattle.order_list.specs.Ordered.{high_by, next_of};
ghost use Rattle.order_list.specs.Labels.{IsSpread};
ghost use Rattle.order_list.specs.Chain.{walk, Keeps};
ghost use Rattle.order_list.specs.Spans.{Leads, IsRoute, set_evenly};

use crate::place::Window;
use crate::window::window;

// Gives the items of a window the labels base, base + gap and so on, in the order of the chain.
fn spread(labels: &mut [u64], nexts: &[Option<u32>], window: Window)
    requires route { (items : List ℕ) × (rest : List ℕ) × IsRoute labels.old nexts.now window items rest }
    ensures { (items rest : List ℕ) → IsRoute labels.old nexts.now window items rest
        → labels.new ≡ set_evenly labels.old window.base window.gap items }
{
    let mut at = Some(window.first.0);
    let mut label = window.base;
    for k in 0..window.items {
        if let Some(x) = at {
            labels[x as usize] = label;
            label += window.gap;
            at = nexts[x as usize];
        }
    }
}

// Spreads the labels of the least sparse window at x, and tells the window. Then there is a label between x and the next
// item.
pub fn relabel(labels: &mut [u64], nexts: &[Option<u32>], prevs: &[Option<u32>], x: u32) -> Window
    requires kept { Keeps labels.old nexts.now prevs.now (walk nexts.now (length nexts.now) (Some 0)) }
    requires few { length nexts.now < 2 ^ 32 }
    requires x_in { x < length nexts.now }
    ensures kept { Keeps labels.new nexts.now prevs.now (walk nexts.now (length nexts.now) (Some 0)) }
    ensures spread { IsSpread labels.old (walk nexts.now (length nexts.now) (Some 0)) x result labels.new }
    ensures between { slice_index labels.new x + 2
        ≤ high_by labels.new (next_of x (walk nexts.now (length nexts.now) (Some 0))) }
{
    let window = window(labels, nexts, prevs, x);
    spread(labels, nexts, window);
    window
}

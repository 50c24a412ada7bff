//! Which labels are made anew.
ghost use Rattle.std.specs.Prelude.{◌≡◌, ℕ, ◌*◌, ◌^◌, ◌<◌, ◌≤◌, true, nat_le, length, slice_index, Some};
ghost use Rattle.order_list.specs.Labels.{IsWindowOf};
ghost use Rattle.order_list.specs.Chain.{walk, Keeps};
ghost use Rattle.order_list.specs.Spans.{IsFound};

use crate::item::Item;
use crate::place::Window;
use crate::span::{Span, widened};

// Whether so few items may share the 2^i labels of a window: at most 1.5^i.
fn is_sparse(items: u32, i: u32) -> bool
    requires { i ≤ 62 }
    ensures { result ≡ nat_le (items * 2 ^ i) (3 ^ i) }
{
    u128::from(items) * 2u128.pow(i) <= 3u128.pow(i)
}

// The least sparse window at x. The span of each window is that of the one before, widened, so that no item is met twice.
pub fn window(labels: &[u64], nexts: &[Option<u32>], prevs: &[Option<u32>], x: u32) -> Window
    requires kept { Keeps labels.now nexts.now prevs.now (walk nexts.now (length nexts.now) (Some 0)) }
    requires few { length nexts.now < 2 ^ 32 }
    requires x_in { x < length nexts.now }
    ensures window { IsWindowOf labels.now (walk nexts.now (length nexts.now) (Some 0)) x result }
    ensures found { IsFound labels.now nexts.now prevs.now (walk nexts.now (length nexts.now) (Some 0)) x result }
{
    let label = labels[x as usize];
    let mut span = Span {
        first: x,
        items: 1,
        before: prevs[x as usize],
        after: nexts[x as usize],
    };
    for i in 1..63u32 {
        let size = 2u64.pow(i);
        let base = label - label % size;
        span = widened(labels, nexts, prevs, span, base, base + size);
        if is_sparse(span.items, i) {
            return Window {
                first: Item(span.first),
                items: span.items,
                base,
                gap: size / u64::from(span.items),
            };
        }
    }
    unreachable!()
}

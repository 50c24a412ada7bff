//! Items that stand together and have labels in one range.
ghost use Rattle.std.specs.Prelude.{◌≡◌, ℕ, ◌^◌, ◌<◌, ◌≤◌, List, length, Some};
ghost use Rattle.order_list.specs.Chain.{walk, Keeps};
ghost use Rattle.order_list.specs.Spans.{Leads, IsWay, IsStretch, IsSpan, IsWithinSpan, next_between};

// Items that stand together: the first of them, how many, and the items right before and after them.
#[derive(Clone, Copy)]
pub struct Span {
    pub first: u32,
    pub items: u32,
    pub before: Option<u32>,
    pub after: Option<u32>,
}

// Items met one after the other along links: the last of them, how many, and the item that comes next.
#[derive(Clone, Copy)]
pub struct Stretch {
    pub last: u32,
    pub items: u32,
    pub stop: Option<u32>,
}

// The item, if there is one and its label is from `low` on and below `high`.
fn between(labels: &[u64], at: Option<u32>, low: u64, high: u64) -> Option<u32>
    requires { (x : ℕ) → at ≡ Some x → x < length labels.now }
    ensures { result ≡ next_between labels.now low high at }
{
    match at {
        Some(x) => {
            let label = labels[x as usize];
            if low <= label && label < high {
                Some(x)
            } else {
                None
            }
        }
        None => None,
    }
}

// Goes along the links from `at` on, as long as labels are from `low` on and below `high`. The last item met is `from`
// where there is none.
fn go_along(
    labels: &[u64],
    links: &[Option<u32>],
    from: u32,
    at: Option<u32>,
    low: u64,
    high: u64,
) -> Stretch
    requires way { (xs : List ℕ) × IsWay labels.now links.now at xs }
    ensures { (xs : List ℕ) → Leads links.now at xs → IsStretch labels.now links.now low high from xs result }
{
    let mut last = from;
    let mut stop = at;
    for k in 0..links.len() {
        match between(labels, stop, low, high) {
            Some(x) => {
                last = x;
                stop = links[x as usize];
            }
            None => {
                return Stretch {
                    last,
                    items: k as u32,
                    stop,
                };
            }
        }
    }
    Stretch {
        last,
        items: links.len() as u32,
        stop,
    }
}

// A span of labels in some range, widened to those from `base` on and below `end`.
pub fn widened(
    labels: &[u64],
    nexts: &[Option<u32>],
    prevs: &[Option<u32>],
    span: Span,
    base: u64,
    end: u64,
) -> Span
    requires kept { Keeps labels.now nexts.now prevs.now (walk nexts.now (length nexts.now) (Some 0)) }
    requires few { length nexts.now < 2 ^ 32 }
    requires span { IsWithinSpan labels.now nexts.now prevs.now (walk nexts.now (length nexts.now) (Some 0)) base end span }
    ensures { IsSpan labels.now nexts.now prevs.now (walk nexts.now (length nexts.now) (Some 0)) base end result }
{
    let back = go_along(labels, prevs, span.first, span.before, base, end);
    let on = go_along(labels, nexts, span.first, span.after, base, end);
    Span {
        first: back.last,
        items: span.items + back.items + on.items,
        before: back.stop,
        after: on.stop,
    }
}

//! The list of items with their labels.
ghost use Rattle.std.specs.Prelude.{◌≡◌, ℕ, ◌+◌, ◌^◌, ◌<◌, ◌≤◌, [], ◌∷◌, ◌++◌, length, IfOk, Some, slice_index, option_map, vec_len, vec_capacity};
ghost use Rattle.order_list.specs.Ordered.{Ordered, put_after, stands_before, next_of, high_of, IsFresh, IsKept};
ghost use Rattle.order_list.specs.Chain.{with_prev};
ghost use Rattle.order_list.specs.Labels.{place_of, middle_of, IsWindowOf, IsSpread, HasSpace, HasMadeSpace, LabelsAfter};

use crate::item::Item;
use crate::place::{Place, Window};
use crate::spread::relabel;
use crate::window::window;
use std::alloc::Global;
use std::marker::Model;

/// Want of memory.
pub use std::alloc::AllocError as NoMemory;

/// One more than the greatest label.
const END: u64 = 1 << 62;

/// A list of items with item 0 first. Contracts see the items in order, their labels by number, and for how many more
/// items it has room. Labels are below 2^62.
///
/// Where the labels of x and the next item leave no room between them, labels are made anew in a window of labels at x.
/// For i from 1 to 62 the window of size 2^i begins at the greatest multiple of 2^i that is not above the label of x; it
/// is sparse where at most 1.5^i items have labels in it. The least sparse window is taken: its items are spread evenly
/// over it, and no other label changes. The rule is that of Bender, Cole, Demaine, Farach-Colton and Zito 2002, by which
/// many inserts make a logarithmic number of labels anew each, on average; which labels result is proved, that bound is
/// not.
#[derive(Drop)]
pub struct OrderList {
    labels: Vec<u64>,
    nexts: Vec<Option<u32>>,
    prevs: Vec<Option<u32>>,
    room: u32,
}

impl Model for OrderList {
    ghost use Rattle.std.specs.Prelude.{◌+◌, ◌^◌, ◌≤◌, ◌<◌, Some, vec_len, vec_capacity};
    ghost use Rattle.order_list.specs.Ordered.{Ordered};
    ghost use Rattle.order_list.specs.Chain.{walk, Keeps};

    ghost Value = { Ordered };

    ghost view = { λ l. record { order = walk l.nexts.items (vec_len l.nexts) (Some 0); labels = l.labels.items; room = l.room } };

    ghost invariant = { λ l. Keeps l.labels.items l.nexts.items l.prevs.items (walk l.nexts.items (vec_len l.nexts) (Some 0))
        × (vec_len l.labels + l.room ≤ vec_capacity l.labels)
        × (vec_len l.nexts + l.room ≤ vec_capacity l.nexts)
        × (vec_len l.prevs + l.room ≤ vec_capacity l.prevs)
        × (vec_len l.nexts + l.room < 2 ^ 32) };
}

impl OrderList {
    /// A list of item 0 alone, with room for `capacity` items in all. It takes all its memory here.
    pub fn make(alloc: Global, capacity: u32) -> Result<OrderList, NoMemory>
        requires { 1 ≤ capacity }
        ensures { IfOk result (λ l. IsFresh capacity l) }
    {
        let mut labels = Vec::new(alloc);
        labels.reserve(capacity as usize)?;
        let mut nexts = Vec::new(alloc);
        nexts.reserve(capacity as usize)?;
        let mut prevs = Vec::new(alloc);
        prevs.reserve(capacity as usize)?;
        labels.push_reserved(END / 2);
        nexts.push_reserved(None);
        prevs.push_reserved(None);
        Ok(OrderList {
            labels,
            nexts,
            prevs,
            room: capacity - 1,
        })
    }

    /// How many items there are.
    pub fn len(&self) -> u32
        ensures len { result ≡ length self.now.order }
        // What every list keeps.
        ensures kept { IsKept self.now }
    {
        self.nexts.len() as u32
    }

    /// The label of x.
    pub fn label(&self, x: Item) -> u64
        requires { x.0 < length self.now.order }
        ensures { result ≡ slice_index self.now.labels x.0 }
    {
        self.labels[x.0 as usize]
    }

    /// Whether x stands before y.
    pub fn before(&self, x: Item, y: Item) -> bool
        requires x_in { x.0 < length self.now.order }
        requires y_in { y.0 < length self.now.order }
        ensures { result ≡ stands_before x.0 y.0 self.now.order }
    {
        self.labels[x.0 as usize] < self.labels[y.0 as usize]
    }

    /// The item right after x; `None` exactly after the last.
    pub fn next(&self, x: Item) -> Option<Item>
        requires { x.0 < length self.now.order }
        ensures { option_map (λ i. i.0) result ≡ next_of x.0 self.now.order }
    {
        match self.nexts[x.0 as usize] {
            Some(next) => Some(Item(next)),
            None => None,
        }
    }

    /// The label of an item that is put after x, in the middle between that of x and the next one, or 2^62 after the
    /// last.
    pub fn place_after(&self, x: Item) -> Place
        requires { x.0 < length self.now.order }
        ensures place { result ≡ place_of self.now x.0 }
        // What every list keeps.
        ensures kept { IsKept self.now }
    {
        let low = self.labels[x.0 as usize];
        let high = self.high_after(x);
        if high - low < 2 {
            Place::Relabel
        } else {
            Place::Label(low + (high - low) / 2)
        }
    }

    /// The items and labels of a relabelling at x: the least sparse window.
    pub fn window(&self, x: Item) -> Window
        requires { x.0 < length self.now.order }
        ensures { IsWindowOf self.now.labels self.now.order x.0 result }
    {
        window(
            self.labels.as_slice(),
            self.nexts.as_slice(),
            self.prevs.as_slice(),
            x.0,
        )
    }

    /// Makes labels anew at x: the items of the least sparse window, which it tells, are spread evenly over it. Afterwards
    /// there is a label between x and the next item. It takes no memory.
    pub fn relabel(&mut self, x: Item) -> Window
        requires { x.0 < length self.old.order }
        ensures order { self.new.order ≡ self.old.order }
        ensures room { self.new.room ≡ self.old.room }
        ensures labels { IsSpread self.old.labels self.old.order x.0 result self.new.labels }
        ensures space { HasSpace self.new x.0 }
        // What every list keeps.
        ensures was_kept { IsKept self.old }
        ensures kept { IsKept self.new }
    {
        relabel(
            self.labels.as_mut_slice(),
            self.nexts.as_slice(),
            self.prevs.as_slice(),
            x.0,
        )
    }

    /// Makes labels anew at x exactly where there is none between x and the next item, and tells the window; `None` where
    /// nothing changed. It takes no memory.
    pub fn make_space(&mut self, x: Item) -> Option<Window>
        requires { x.0 < length self.old.order }
        ensures space { HasMadeSpace self.old x.0 result self.new }
        // What every list keeps.
        ensures was_kept { IsKept self.old }
        ensures kept { IsKept self.new }
    {
        match self.place_after(x) {
            Place::Label(_) => None,
            Place::Relabel => Some(self.relabel(x)),
        }
    }

    /// Puts a new item right after x. Where there is no label between, those of the least sparse window are made
    /// anew first. It takes no memory.
    pub fn insert_after(&mut self, x: Item) -> Item
        requires x_in { x.0 < length self.old.order }
        requires room { 1 ≤ self.old.room }
        ensures item { result.0 ≡ length self.old.order }
        ensures order { self.new.order ≡ put_after x.0 (result.0 ∷ []) self.old.order }
        ensures room { self.new.room + 1 ≡ self.old.room }
        ensures labels { LabelsAfter self.old x.0 self.new.labels }
        // What every list keeps.
        ensures was_kept { IsKept self.old }
        ensures kept { IsKept self.new }
    {
        self.make_space(x);
        let label = self.middle(x);
        self.link(x, label)
    }

    // The label of the next item, or 2^62.
    fn high_after(&self, x: Item) -> u64
        requires { x.0 < length self.now.order }
        ensures high { result ≡ high_of self.now x.0 }
        ensures above { slice_index self.now.labels x.0 < result }
        ensures most { result ≤ 2 ^ 62 }
    {
        match self.nexts[x.0 as usize] {
            Some(next) => self.labels[next as usize],
            None => END,
        }
    }

    // The label in the middle between an item and the next.
    fn middle(&self, x: Item) -> u64
        requires x_in { x.0 < length self.now.order }
        requires space { HasSpace self.now x.0 }
        ensures middle { result ≡ middle_of (slice_index self.now.labels x.0) (high_of self.now x.0) }
        ensures above { slice_index self.now.labels x.0 < result }
        ensures below { result < high_of self.now x.0 }
    {
        let low = self.labels[x.0 as usize];
        low + (self.high_after(x) - low) / 2
    }

    // Puts an item right after x, with a label that is free there.
    fn link(&mut self, x: Item, label: u64) -> Item
        requires x_in { x.0 < length self.old.order }
        requires room { 1 ≤ self.old.room }
        requires low { slice_index self.old.labels x.0 < label }
        requires high { label < high_of self.old x.0 }
        ensures item { result.0 ≡ length self.old.order }
        ensures order { self.new.order ≡ put_after x.0 (result.0 ∷ []) self.old.order }
        ensures labels { self.new.labels ≡ self.old.labels ++ label ∷ [] }
        ensures room { self.new.room + 1 ≡ self.old.room }
        ensures was_kept { IsKept self.old }
        ensures kept { IsKept self.new }
    {
        let item = self.nexts.len() as u32;
        let next = self.nexts[x.0 as usize];
        self.labels.push_reserved(label);
        self.nexts.push_reserved(next);
        self.nexts[x.0 as usize] = Some(item);
        self.prevs.push_reserved(Some(x.0));
        lead_back(&mut self.prevs, next, item);
        self.room -= 1;
        Item(item)
    }
}

// Lets the next item, if there is one, lead back to an item.
fn lead_back(prevs: &mut Vec<Option<u32>>, next: Option<u32>, item: u32)
    requires { (y : ℕ) → next ≡ Some y → y < vec_len prevs.old }
    ensures items { prevs.new.items ≡ with_prev prevs.old.items next item }
    ensures len { vec_len prevs.new ≡ vec_len prevs.old }
    ensures capacity { vec_capacity prevs.new ≡ vec_capacity prevs.old }
{
    if let Some(y) = next {
        prevs[y as usize] = Some(item);
    }
}

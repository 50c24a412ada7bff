//! New orders.
ghost use Rattle.std.specs.Prelude.{◌≡◌, ◌≤◌, [], IfOk};
ghost use Rattle.order_list.specs.Ordered.{IsFresh};
ghost use Rattle.order_query.specs.Plays.{first_words};

use crate::orders::Orders;
use crate::reader::{Reader, Writer};
use atomic_table::Table;
use order_list::{NoMemory, Still};
use std::alloc::Global;

// The label of item 0 in both lists.
const MIDDLE: u64 = 1 << 61;

// The words of item 0 alone, with so many words of labels after it.
fn words(alloc: Global, more: usize) -> Result<Vec<u64>, NoMemory>
    ensures { IfOk result (λ v. v.items ≡ first_words more) }
{
    let mut labels = vec![in alloc; 0u64; more]?;
    let mut words = vec![in alloc; 0, 1, MIDDLE, MIDDLE]?;
    words.append(&mut labels)?;
    Ok(words)
}

impl Orders {
    /// Orders of item 0 alone, with room for `capacity` items in all, their writer and a reader. It takes all its memory
    /// here.
    pub fn make(alloc: Global, capacity: u32) -> Result<(Orders, Writer, Reader), NoMemory>
        requires { 1 ≤ capacity }
        ensures english { IfOk result (λ r. IsFresh capacity r.1.lists.english) }
        ensures hebrew { IfOk result (λ r. IsFresh capacity r.1.lists.hebrew) }
        ensures writer { IfOk result (λ r. (r.1.log ≡ []) × (r.1.version ≡ 0) × (r.1.home ≡ r.0)) }
        ensures reader { IfOk result (λ r. r.2 ≡ record { log = []; loaded = []; home = r.0 }) }
    {
        let lists = Still::make(alloc, capacity)?;
        let more = 2 * (capacity as usize - 1);
        let words = words(alloc, more)?;
        let (table, seat) = Table::of_words(alloc, words.as_slice(), &more)?;
        let orders = Orders { table };
        let mut writer = Writer {
            lists,
            seat,
            version: 0,
        };
        let reader = orders.note(&mut writer);
        Ok((orders, writer, reader))
    }
}

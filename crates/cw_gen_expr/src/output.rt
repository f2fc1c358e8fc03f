//! Orders as they are made, with the places of their labels and marks.
ghost use Rattle.std.specs.Prelude.{◌≡◌, [], ◌∷◌, ◌++◌, length, take, replicate, set, true, false, OnOk, IfOk};
ghost use Rattle.cw_order.specs.declared.order.Order.TheVariants as order;
ghost use Rattle.cw_gen_expr.specs.Pieces.{MarkedOrders, plain, with_labels};
ghost use Rattle.cw_gen_expr.specs.Output.{made, added, extent_of, shortened, Adds, Reserves, Places};

use cw_order::Order;
use cw_word::{List, NoMemory};
use std::alloc::Global;
use std::mem;

/// How much there is of each list.
#[derive(Clone, Copy)]
pub struct Extent {
    pub orders: usize,
    pub labels: usize,
    pub marks: usize,
}

/// The orders of a unit so far. A label has its place in `labels`, with its number. `marks` has a place for each mark: 0
/// for one that is not placed yet, and for the marks of labels.
#[derive(Drop)]
pub struct Output {
    alloc: Global,
    pub orders: List<Order>,
    pub labels: List<(u32, u32)>,
    pub marks: Vec<u32>,
    /// There was no memory for an order or a mark, or a number was one that no unit has. Then the rest is of no use, and what is added
    /// to it does no harm.
    pub failed: bool,
}

/// The number of an order or a mark. NoMemory comes where it would pass 2^32 - 1.
pub fn number(n: usize) -> Result<u32, NoMemory>
    ensures { IfOk result (λ number. number ≡ n) }
{
    match u32::try_from(n) {
        Ok(number) => Ok(number),
        Err(_) => Err(NoMemory),
    }
}

/// The first so many items.
fn shorten<T: Drop>(alloc: Global, list: &mut List<T>, count: usize)
    ensures { list.new ≡ take count list.old }
{
    let mut items = mem::replace(list, List::new(alloc)).into_vec();
    items.truncate(count);
    *list = List::of(items);
}

impl Output {
    /// No orders, where so many marks have numbers already.
    pub fn new(alloc: Global, marks: usize) -> Result<Self, NoMemory>
        ensures { IfOk result (λ out. made out ≡ record { orders = []; labels = []; marks = replicate marks 0 }) }
    {
        Ok(Output {
            alloc,
            orders: List::new(alloc),
            labels: List::new(alloc),
            marks: vec![in alloc; 0; marks].map_err(|_| NoMemory)?,
            failed: false,
        })
    }

    pub fn push(&mut self, order: Order) -> Result<(), NoMemory>
        ensures { OnOk result (made self.new ≡ added (plain (order ∷ [])) (made self.old)) }
    {
        self.orders.push(order)
    }

    pub fn extent(&self) -> Extent
        ensures { result ≡ extent_of (made self.now) }
    {
        Extent {
            orders: self.orders.as_slice().len(),
            labels: self.labels.as_slice().len(),
            marks: self.marks.len(),
        }
    }

    /// Takes back what came behind an extent.
    pub fn retract(&mut self, extent: Extent)
        ensures held { self.new.failed ≡ self.old.failed }
        ensures orders { made self.new ≡ shortened extent (made self.old) }
    {
        shorten(self.alloc, &mut self.orders, extent.orders);
        shorten(self.alloc, &mut self.labels, extent.labels);
        self.marks.truncate(extent.marks);
    }

    /// The place of the next order.
    pub fn place(&self) -> Result<u32, NoMemory>
        ensures { IfOk result (λ place. place ≡ length self.now.orders) }
    {
        number(self.orders.as_slice().len())
    }

    /// A mark that is placed later.
    fn new_mark(&mut self) -> Result<u32, NoMemory>
        ensures held { self.new.failed ≡ self.old.failed }
        ensures mark { IfOk result (λ mark. mark ≡ length self.old.marks.items) }
        ensures reserved { OnOk result (made self.new ≡ record { orders = self.old.orders; labels = self.old.labels; marks = self.old.marks.items ++ 0 ∷ [] }) }
    {
        let mark = number(self.marks.len())?;
        self.marks.push(0).map_err(|_| NoMemory)?;
        Ok(mark)
    }

    /// Places a mark here.
    fn set_mark(&mut self, mark: u32) -> Result<(), NoMemory>
        ensures held { self.new.failed ≡ self.old.failed }
        ensures placed { OnOk result
            (made self.new ≡ record {
              orders = self.old.orders ++ order.Mark ∷ [];
              labels = self.old.labels;
              marks = set self.old.marks.items mark (length self.old.orders);
            }) }
    {
        let place = self.place()?;
        if let Some(placed) = self.marks.get_mut(mark as usize) {
            *placed = place;
        }
        self.orders.push(Order::Mark)
    }

    /// What is here is of no use.
    pub fn fail(&mut self)
        ensures { self.new.failed ≡ true }
    {
        self.failed = true;
    }

    /// NoMemory where it has failed.
    pub fn outcome(&self) -> Result<(), NoMemory>
        ensures { OnOk result (self.now.failed ≡ false) }
    {
        if self.failed { Err(NoMemory) } else { Ok(()) }
    }

    /// Adds an order, or fails.
    pub fn put(&mut self, order: Order)
        ensures { Adds (plain (order ∷ [])) self.old self.new }
    {
        match self.orders.push(order) {
            Ok(()) => (),
            Err(_) => self.fail(),
        }
    }

    /// Adds two orders, the first one first, or fails.
    pub fn put_two(&mut self, first: Order, second: Order)
        ensures { Adds (plain (first ∷ second ∷ [])) self.old self.new }
    {
        self.put(first);
        self.put(second);
    }

    /// Adds three orders, the first one first, or fails.
    pub fn put_three(&mut self, first: Order, second: Order, third: Order)
        ensures { Adds (plain (first ∷ second ∷ third ∷ [])) self.old self.new }
    {
        self.put(first);
        self.put_two(second, third);
    }

    /// A mark that is placed later; 0 where it fails.
    pub fn reserve(&mut self) -> u32
        ensures { Reserves result self.old self.new }
    {
        match self.new_mark() {
            Ok(mark) => mark,
            Err(_) => {
                self.fail();
                0
            }
        }
    }

    /// Places a mark here, or fails.
    pub fn put_mark(&mut self, mark: u32)
        ensures { Places mark self.old self.new }
    {
        match self.set_mark(mark) {
            Ok(()) => (),
            Err(_) => self.fail(),
        }
    }

    /// Places labels here.
    fn set_labels(&mut self, labels: &[u32]) -> Result<(), NoMemory>
        ensures held { self.new.failed ≡ self.old.failed }
        ensures placed { OnOk result (made self.new ≡ added (with_labels labels.now) (made self.old)) }
    {
        let place = self.place()?;
        for label in labels {
            self.labels.push((*label, place))?;
        }
        self.orders.push(Order::Mark)
    }

    /// Places labels here, or fails.
    pub fn put_labels(&mut self, labels: &[u32])
        ensures { Adds (with_labels labels.now) self.old self.new }
    {
        match self.set_labels(labels) {
            Ok(()) => (),
            Err(_) => self.fail(),
        }
    }
}

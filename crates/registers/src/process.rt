// The registers of one process as a whole: each method takes them by value and hands them back. A contract says of every process g that the
// registers stand for what g they stand for afterwards, in the words of `rules`; a count with no room is for the caller to refuse before.
ghost use Rattle.std.specs.Prelude.{◌≡◌, [], ℕ, ◌+◌, ◌-◌, ◌<◌, ◌≤◌, length, set};
ghost use Rattle.std.proofs.Math.Option.{Option};
ghost use Rattle.rules.specs.Limits.{stack_depth, environment_depth, slot_count, end_count};
ghost use Rattle.rules.specs.State.{Registers as Process, registers, slot_at};
ghost use Rattle.rules.specs.Slots.{emptied, holding, kept_by, any_held, not_together, any_empty, all_emptied};
ghost use Rattle.rules.specs.Causes.{top, below};
ghost use Rattle.rules.specs.RecordStep.{branch};
ghost use Rattle.rules.specs.Layout.{optional};
ghost use Rattle.rules.specs.Numbers.{slot_number, end_number};
ghost use Rattle.registers.specs.Registers.{registers_of, pushed, popped, stored, combined, moved_to, with_slots, passed, called};
ghost use Rattle.registers.specs.Registers.{end_of};

use crate::{Registers, listed, slots, values};
use rules::{ENVIRONMENT_DEPTH, End, STACK_DEPTH, Slot};

// The top value and the registers without it.
#[derive(Clone, Copy)]
pub struct Popped {
    pub value: i32,
    pub registers: Registers,
}

impl Registers {
    // v on top of the stack.
    pub fn push(mut self, v: i32) -> Registers
        requires { self.stack_count < stack_depth }
        ensures stack_count_bound { result.stack_count ≤ stack_depth }
        ensures value { (g : Process) → self ≡ registers_of g → result ≡ registers_of (pushed g v) }
    {
        let values = self.stack;
        let stack = values::in_front(v, values);
        self.stack = stack;
        self.stack_count += 1;
        self
    }

    // The top, and the registers without it.
    pub fn pop(mut self) -> Popped
        requires { 0 < self.stack_count }
        ensures { (g : Process) → length g.stack ≤ stack_depth → self ≡ registers_of g
            → (result.value ≡ top g) × (result.registers ≡ registers_of (popped g)) }
    {
        let values = self.stack;
        let stack = values::behind_first(values);
        self.stack = stack;
        self.stack_count -= 1;
        Popped {
            value: values[0],
            registers: self,
        }
    }

    // The value on top, 0 of an empty stack, as `top` of the rules has it.
    pub fn top(self) -> i32
        ensures { (g : Process) → self ≡ registers_of g → result ≡ top g }
    {
        let values = self.stack;
        values[0]
    }

    // The value below the top, 0 where there is none, as `below` of the rules has it.
    pub fn below(self) -> i32
        ensures { (g : Process) → self ≡ registers_of g → result ≡ below g }
    {
        let values = self.stack;
        values[1]
    }

    // The top goes to the front of the environment.
    pub fn store(mut self) -> Registers
        requires { (0 < self.stack_count) × (self.environment_count < environment_depth) }
        ensures stack_count_value { (result.stack_count ≡ self.stack_count - 1) × (result.environment_count ≡ self.environment_count + 1) }
        ensures value { (g : Process) → length g.stack ≤ stack_depth → self ≡ registers_of g → result ≡ registers_of (stored g) }
    {
        let values = self.stack;
        let older = self.environment;
        let stack = values::behind_first(values);
        let environment = values::in_front(values[0], older);
        self.stack = stack;
        self.stack_count -= 1;
        self.environment = environment;
        self.environment_count += 1;
        self
    }

    // The two values on top become v.
    pub fn combine(mut self, v: i32) -> Registers
        requires { 1 < self.stack_count }
        ensures { (g : Process) → length g.stack ≤ stack_depth → self ≡ registers_of g → result ≡ registers_of (combined g v) }
    {
        let values = self.stack;
        let one = values::behind_first(values);
        let two = values::behind_first(one);
        let stack = values::in_front(v, two);
        self.stack = stack;
        self.stack_count -= 1;
        self
    }

    // The process goes on at a place.
    pub fn at(mut self, place: u16) -> Registers
        ensures { (g : Process) → self ≡ registers_of g → result ≡ registers_of (moved_to g place) }
    {
        self.place = place;
        self
    }

    // The end that local slot c stands for, if it stands for one.
    pub fn end_in(self, c: Slot) -> Option<End>
        ensures { (g : Process) → length g.slots ≡ slot_count → self ≡ registers_of g → end_of result ≡ slot_at g (slot_number c) }
    {
        let held = self.slots;
        let x = slots::at(held, c);
        if x == 0 {
            return None;
        }
        Some(End(x - 1))
    }

    // Slot c is put anew: x is 0 for an empty slot, else an end's number and one.
    fn put_slot(mut self, c: Slot, x: u8) -> Registers
        ensures { (g : Process) (o : Option ℕ) → length g.slots ≡ slot_count → x ≡ optional o → self ≡ registers_of g
            → result ≡ registers_of (with_slots g (set g.slots (slot_number c) o)) }
    {
        let held = self.slots;
        let slots = slots::put(held, c, x);
        self.slots = slots;
        self
    }

    // Slot c is emptied.
    pub fn empty_slot(self, c: Slot) -> Registers
        ensures { (g : Process) → length g.slots ≡ slot_count → self ≡ registers_of g
            → result ≡ registers_of (with_slots g (emptied g.slots (slot_number c))) }
    {
        self.put_slot(c, 0)
    }

    // Slot c holds end e.
    pub fn hold(self, c: Slot, e: End) -> Registers
        requires { end_number e < end_count }
        ensures { (g : Process) → length g.slots ≡ slot_count → self ≡ registers_of g
            → result ≡ registers_of (with_slots g (holding g.slots (slot_number c) (end_number e))) }
    {
        let n = e.0;
        self.put_slot(c, n + 1)
    }

    // The slots of the set m and an empty stack, at a place.
    fn kept(mut self, m: u8, place: u16) -> Registers
        ensures { (g : Process) → length g.slots ≡ slot_count → self ≡ registers_of g
            → result ≡ registers_of (registers place [] g.environment (kept_by m g.slots)) }
    {
        let held = self.slots;
        let slots = slots::kept(held, m);
        self.slots = slots;
        self.stack = [0; STACK_DEPTH];
        self.stack_count = 0;
        self.place = place;
        self
    }

    // A branch of a plug or a fork: at its place with an empty stack, the environment, the slots of its m, and end e in slot a.
    pub fn branch(self, a: Slot, m: u8, place: u16, e: End) -> Registers
        requires { end_number e < end_count }
        ensures { (g : Process) → length g.slots ≡ slot_count → self ≡ registers_of g
            → result ≡ registers_of (branch g (slot_number a) m place (end_number e)) }
    {
        self.kept(m, place).hold(a, e)
    }

    // n values are popped, and are the environment, the last one popped first.
    fn pass(mut self, n: u8) -> Registers
        requires { (n ≤ self.stack_count) × (n ≤ environment_depth) }
        ensures { (g : Process) → length g.stack ≤ stack_depth → self ≡ registers_of g → result ≡ registers_of (passed g n) }
    {
        self.environment = [0; ENVIRONMENT_DEPTH];
        self.environment_count = 0;
        let mut callee = self;
        for _ in 0..n {
            callee = callee.store();
        }
        callee
    }

    // The registers of a callee: the n values popped are its environment, and slot i gets the end of the i-th listed slot.
    pub fn called(self, place: u16, n: u8, listed: &[u8]) -> Registers
        requires { (n ≤ self.stack_count) × (n ≤ environment_depth) }
        ensures { (g : Process) → length g.stack ≤ stack_depth → length g.slots ≡ slot_count → self ≡ registers_of g
            → result ≡ registers_of (called g place n listed.now) }
    {
        let mut callee = self.pass(n);
        let held = callee.slots;
        let slots = listed::callee(held, listed);
        callee.slots = slots;
        callee.place = place;
        callee
    }

    // Some slot is held.
    pub fn any_held(self) -> bool
        ensures { (g : Process) → length g.slots ≡ slot_count → self ≡ registers_of g → result ≡ any_held g.slots }
    {
        let held = self.slots;
        slots::any_held(held)
    }

    // The sets m and n together are not exactly the held slots.
    pub fn not_together(self, m: u8, n: u8) -> bool
        ensures { (g : Process) → length g.slots ≡ slot_count → self ≡ registers_of g → result ≡ not_together m n g.slots }
    {
        let held = self.slots;
        slots::not_together(held, m, n)
    }

    // Some listed slot is empty.
    pub fn any_empty(self, listed: &[u8]) -> bool
        ensures { (g : Process) → length g.slots ≡ slot_count → self ≡ registers_of g
            → result ≡ any_empty g.slots listed.now }
    {
        let held = self.slots;
        listed::any_empty(held, listed)
    }

    // Some slot that is not listed is held.
    pub fn any_held_but(self, listed: &[u8]) -> bool
        ensures { (g : Process) → length g.slots ≡ slot_count → self ≡ registers_of g
            → result ≡ any_held (all_emptied g.slots listed.now) }
    {
        let held = self.slots;
        let rest = listed::emptied(held, listed);
        slots::any_held(rest)
    }
}

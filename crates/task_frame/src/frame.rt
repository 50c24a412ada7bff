//! The variables of a running task, by number: one flat list of values.
ghost use Rattle.std.specs.Prelude.{◌^◌, ◌≡◌, ◌≤◌, ◌<◌, [], ◌∷◌, ◌++◌, length, map, max, min, replicate, slice_get, slice_index};
ghost use Rattle.std.specs.Prelude.{slice_index_or, ℕ, List, slice_set, IfOk, OnOk, MatchOption, None, Some, take, drop, ◌+◌};
ghost use Rattle.fut_base.specs.declared.record.Value.TheVariants.{Int};
ghost use Rattle.fut_base.specs.declared.record.Value.{Value as Carried};
ghost use Rattle.task_machine.specs.Variables.{One, Many, Slot, value_of, refilled, values_of};
ghost use Rattle.task_machine.specs.State.{element_of};
ghost use Rattle.task_frame.specs.declared.names.Name.{Name as Named};
ghost use Rattle.task_frame.specs.declared.frame.Shape.TheVariants as shape;
ghost use Rattle.task_frame.specs.Frames.{shape_of, shape_size, slot_in_place, with_element, elements_of, zero_slot, zero_value};

use crate::names::Name;
use fut_base::list::NoMemory;
use fut_base::record::Value;
use std::alloc::Global;
use std::marker::Model;

/// Whether a variable holds one value, or those of an array.
#[derive(Clone, Copy, Debug)]
pub enum Shape {
    One,
    Many(usize),
}

/// Where a variable's values begin, for how many there is room, and what it holds now.
#[derive(Clone, Copy, Debug)]
pub struct Extent {
    first: usize,
    room: usize,
    shape: Shape,
}

/// The variables of a task. Contracts see what each holds, and for how many values it has room.
#[derive(Drop)]
pub struct Frame {
    values: Vec<Value>,
    places: Vec<Extent>,
}

impl Model for Frame {
    ghost use Rattle.std.specs.Prelude.{length};
    ghost use Rattle.task_frame.specs.Frames.{Held, slots_of, rooms_of, AreLaid};

    ghost Value = { Held };

    ghost view = { λ f. record { slots = slots_of f.values.items f.places.items; rooms = rooms_of f.places.items } };

    ghost invariant = { λ f. AreLaid 0 f.places.items (length f.values.items) };
}

impl Frame {
    /// The variables of these names, each 0.
    pub fn make(alloc: Global, names: &[Name]) -> Result<Frame, NoMemory>
        ensures slots { IfOk result (λ f. f.slots ≡ replicate (length names.now) zero_slot) }
        ensures rooms { IfOk result (λ f. f.rooms ≡ map (λ (n : Named). max 1 n.room) names.now) }
    {
        let mut values = Vec::new(alloc);
        let mut places = Vec::new(alloc);
        for name in names {
            let first = values.len();
            let room = usize::max(1, name.room as usize);
            push_zeros(&mut values, room)?;
            places.push(Extent {
                first,
                room,
                shape: Shape::One,
            })?;
        }
        Ok(Frame { values, places })
    }

    /// What a variable holds as one value; an array, and what is no variable, counts as 0.
    pub fn value(&self, variable: u32) -> Value
        ensures { result ≡ value_of (slot_in_place self.now.slots variable) }
    {
        match place_of(&self.places, variable) {
            Some(place) => match place.shape {
                Shape::One => self.values[place.first],
                Shape::Many(_) => Value::Int(0),
            },
            None => Value::Int(0),
        }
    }

    /// The elements of a variable that is an array now.
    pub fn elements(&self, variable: u32) -> Option<&[Value]>
        ensures { MatchOption result (elements_of (slot_in_place self.now.slots variable) ≡ None)
            (λ vs. elements_of (slot_in_place self.now.slots variable) ≡ Some vs.now) }
    {
        match place_of(&self.places, variable) {
            Some(place) => match place.shape {
                Shape::One => None,
                Shape::Many(length) => Some(part(&self.values, place.first, length)),
            },
            None => None,
        }
    }

    /// Sets a variable to one value.
    pub fn set_one(&mut self, variable: u32, value: Value)
        ensures slots { self.new.slots ≡ slice_set self.old.slots variable (One value) }
        ensures rooms { self.new.rooms ≡ self.old.rooms }
    {
        if let Some(place) = place_of(&self.places, variable) {
            self.places[variable as usize] = Extent {
                first: place.first,
                room: place.room,
                shape: Shape::One,
            };
            self.values[place.first] = value;
        }
    }

    /// Sets an element of a variable that is an array now and has such an element.
    pub fn set_element(&mut self, variable: u32, index: usize, value: Value)
        ensures slots { self.new.slots ≡ slice_set self.old.slots variable (with_element (slot_in_place self.old.slots variable) index value) }
        ensures rooms { self.new.rooms ≡ self.old.rooms }
    {
        if let Some(place) = place_of(&self.places, variable) {
            if let Shape::Many(length) = place.shape {
                if index < length {
                    let at = place.first + index;
                    self.values[at] = value;
                }
            }
        }
    }

    /// What a variable is now, one value or an array, and of how many.
    pub fn shape(&self, variable: u32) -> Shape
        ensures is { result ≡ shape_of (slot_in_place self.now.slots variable) }
        ensures small { shape_size result < 2 ^ 63 }
    {
        match self.elements(variable) {
            Some(elements) => Shape::Many(elements.len()),
            None => Shape::One,
        }
    }

    /// Makes a variable an array of so many values, or as many as it has room for, whatever these are.
    fn open(&mut self, variable: u32, count: usize)
        ensures slots { (vs : List Carried) × (length vs ≡ min count (slice_index self.old.rooms variable))
            × (self.new.slots ≡ slice_set self.old.slots variable (Many vs)) }
        ensures rooms { self.new.rooms ≡ self.old.rooms }
    {
        if let Some(place) = place_of(&self.places, variable) {
            self.places[variable as usize] = Extent {
                first: place.first,
                room: place.room,
                shape: Shape::Many(usize::min(count, place.room)),
            };
        }
    }

    /// Sets all of a variable, an array in all its elements.
    pub fn refill(&mut self, variable: u32, value: Value)
        ensures slots { self.new.slots ≡ slice_set self.old.slots variable (refilled (slot_in_place self.old.slots variable) value) }
        ensures rooms { self.new.rooms ≡ self.old.rooms }
    {
        match self.shape(variable) {
            Shape::One => self.set_one(variable, value),
            Shape::Many(count) => self.set_each(variable, count, value),
        }
    }

    /// Sets all elements of a variable that is an array of so many.
    fn set_each(&mut self, variable: u32, count: usize, value: Value)
        requires { shape_of (slot_in_place self.old.slots variable) ≡ shape.Many count }
        ensures slots { self.new.slots ≡ slice_set self.old.slots variable (Many (replicate count value)) }
        ensures rooms { self.new.rooms ≡ self.old.rooms }
    {
        for index in 0..count {
            self.set_element(variable, index, value);
        }
    }

    /// Makes a variable an array of so many elements, each with this value, or as many as it has room for.
    pub fn fill(&mut self, variable: u32, count: usize, value: Value)
        ensures slots { self.new.slots ≡ slice_set self.old.slots variable (Many (replicate (min count (slice_index self.old.rooms variable)) value)) }
        ensures rooms { self.new.rooms ≡ self.old.rooms }
    {
        self.open(variable, count);
        self.refill(variable, value);
    }

    /// Copies values into a variable that is an array of as many elements.
    fn copy_in(&mut self, variable: u32, values: &[Value])
        requires { shape_of (slot_in_place self.old.slots variable) ≡ shape.Many (length values.now) }
        ensures slots { self.new.slots ≡ slice_set self.old.slots variable (Many values.now) }
        ensures rooms { self.new.rooms ≡ self.old.rooms }
    {
        for (index, value) in values.iter().enumerate() {
            self.set_element(variable, index, *value);
        }
    }

    /// Makes a variable the array of these values, or of as many as it has room for.
    pub fn take_in(&mut self, variable: u32, values: &[Value])
        ensures slots { self.new.slots ≡ slice_set self.old.slots variable (Many (take (slice_index self.old.rooms variable) values.now)) }
        ensures rooms { self.new.rooms ≡ self.old.rooms }
    {
        self.open(variable, values.len());
        match self.shape(variable) {
            Shape::One => {}
            Shape::Many(count) => self.copy_in(variable, &values[..count]),
        }
    }
}

/// Where the values of a variable lie.
fn place_of(places: &[Extent], variable: u32) -> Option<Extent>
    ensures { result ≡ slice_get places.now variable }
{
    places.get(variable as usize).copied()
}

/// So many values from a place on.
fn part(values: &[Value], first: usize, count: usize) -> &[Value]
    requires { first + count ≤ length values.now }
    ensures { result.now ≡ take count (drop first values.now) }
{
    &values[first..][..count]
}

/// Adds so many zeros at the end.
fn push_zeros(values: &mut Vec<Value>, count: usize) -> Result<(), NoMemory>
    ensures { OnOk result (values.new.items ≡ values.old.items ++ replicate count zero_value) }
{
    for _ in 0..count {
        values.push(Value::Int(0))?;
    }
    Ok(())
}

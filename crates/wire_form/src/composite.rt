//! Reading what is made of several fields. After an Err nothing is said of the bytes that the reader has left.
ghost use Rattle.std.specs.Prelude.{◌≡◌, [], length};
ghost use Rattle.ledger_terms.specs.Parties.{stands_above};
ghost use Rattle.wire_form.specs.Formats.{Gives, items_at, one_more, any_item};
ghost use Rattle.wire_form.specs.Fields.{name_at};
ghost use Rattle.wire_form.specs.Reading.{set_at, tagged_value_at, value_at, values_at, instance_at};
ghost use Rattle.wire_form.specs.Reading.{create_at, exercise_at, fetch_at, tagged_action_at, action_at};

use crate::reader::Reader;
use crate::reader_fault::ReaderFault;
use ledger_terms::limits::{MOST_FIELDS, MOST_PARTIES};
use ledger_terms::{Action, Instance, PartySet, TemplateName, Value, ValueList};
use std::alloc::Global;

impl<'a> Reader<'a> {
    /// Reads a set of parties: a count of at most 128 and names that ascend. Err has how many bytes are left at the first field that can't be read,
    /// such as a name that doesn't stand above those before it; or it is want of memory.
    #[tactic(auto, unfolding(crate::specs::Reading::set_at))]
    pub fn parties(&mut self, alloc: Global) -> Result<PartySet, ReaderFault>
        ensures { Gives (λ x. (x, self.new)) result (set_at self.old) }
    {
        let count = self.count(MOST_PARTIES as u16)?;
        self.names(alloc, count)
    }

    fn names(&mut self, alloc: Global, count: u16) -> Result<PartySet, ReaderFault>
        ensures { Gives (λ x. (x, self.new)) result (items_at stands_above name_at count [] self.old) }
    {
        let mut names = PartySet::new(alloc);
        for _ in 0..count {
            self.next_name(&mut names)?;
        }
        Ok(names)
    }

    // Puts the next name at the end of those before it, where it stands above them.
    fn next_name(&mut self, names: &mut PartySet) -> Result<(), ReaderFault>
        ensures { Gives (λ x. (names.new, self.new)) result (one_more stands_above name_at names.old self.old) }
    {
        let here = self.len();
        let name = self.name()?;
        if names.push_above(name)? {
            Ok(())
        } else {
            Err(ReaderFault::Left(here))
        }
    }

    /// Reads a value: a byte that tells its kind, and what that kind has. Err has how many bytes are left at the first field that can't be read, such
    /// as a byte that tells no kind; or it is want of memory.
    #[tactic(auto, unfolding(crate::specs::Reading::value_at))]
    pub fn value(&mut self, alloc: Global) -> Result<Value, ReaderFault>
        ensures { Gives (λ x. (x, self.new)) result (value_at self.old) }
    {
        let here = self.len();
        let tag = self.byte()?;
        self.tagged_value(alloc, tag, here)
    }

    #[tactic(auto, unfolding(crate::specs::Reading::tagged_value_at))]
    fn tagged_value(&mut self, alloc: Global, tag: u8, here: usize) -> Result<Value, ReaderFault>
        ensures { Gives (λ x. (x, self.new)) result (tagged_value_at tag self.old here) }
    {
        match tag {
            0 => Ok(Value::Unit),
            1 => Ok(Value::Int(self.int()?)),
            2 => Ok(Value::Bool(self.truth()?)),
            3 => Ok(Value::Text(self.text(alloc)?)),
            4 => Ok(Value::Party(self.name()?)),
            5 => Ok(Value::Contract(self.hash()?)),
            6 => Ok(Value::Parties(self.parties(alloc)?)),
            _ => Err(ReaderFault::Left(here)),
        }
    }

    /// Reads a list of values: a count of at most 12 and the values. Err has how many bytes are left at the first field that can't be read, or it is
    /// want of memory.
    #[tactic(auto, unfolding(crate::specs::Reading::values_at))]
    pub fn values(&mut self, alloc: Global) -> Result<ValueList, ReaderFault>
        ensures { Gives (λ x. (x, self.new)) result (values_at self.old) }
    {
        let count = self.small_count(MOST_FIELDS as u8)?;
        self.more_values(alloc, count)
    }

    fn more_values(&mut self, alloc: Global, count: u8) -> Result<ValueList, ReaderFault>
        ensures { Gives (λ x. (x, self.new)) result (items_at any_item value_at count [] self.old) }
    {
        let mut values = ValueList::with_room(alloc, count as usize)?;
        for _ in 0..count {
            self.next_value(alloc, &mut values)?;
        }
        Ok(values)
    }

    fn next_value(&mut self, alloc: Global, values: &mut ValueList) -> Result<(), ReaderFault>
        ensures { Gives (λ x. (values.new, self.new)) result (one_more any_item value_at values.old self.old) }
    {
        let value = self.value(alloc)?;
        values.push(value)?;
        Ok(())
    }

    /// Reads an instance: the names of its package and of its template, and its fields. Err has how many bytes are left at the first field that can't
    /// be read, or it is want of memory.
    #[tactic(auto, unfolding(crate::specs::Reading::instance_at))]
    pub fn instance(&mut self, alloc: Global) -> Result<Instance, ReaderFault>
        ensures { Gives (λ x. (x, self.new)) result (instance_at self.old) }
    {
        let package = self.name()?;
        let name = self.name()?;
        let fields = self.values(alloc)?;
        let template = TemplateName { package, name };
        Ok(Instance::of(alloc, template, fields)?)
    }

    /// Reads an action: a byte that tells whether it is a Create, an Exercise or a Fetch, and its parts. Err has how many bytes are left at the first
    /// field that can't be read, such as another byte; or it is want of memory.
    #[tactic(auto, unfolding(crate::specs::Reading::action_at))]
    pub fn action(&mut self, alloc: Global) -> Result<Action, ReaderFault>
        ensures { Gives (λ x. (x, self.new)) result (action_at self.old) }
    {
        let here = self.len();
        let tag = self.byte()?;
        self.tagged_action(alloc, tag, here)
    }

    #[tactic(auto, unfolding(crate::specs::Reading::tagged_action_at))]
    fn tagged_action(&mut self, alloc: Global, tag: u8, here: usize) -> Result<Action, ReaderFault>
        ensures { Gives (λ x. (x, self.new)) result (tagged_action_at tag self.old here) }
    {
        match tag {
            1 => self.create(alloc),
            2 => self.exercise(alloc),
            3 => self.fetch(alloc),
            _ => Err(ReaderFault::Left(here)),
        }
    }

    #[tactic(auto, unfolding(crate::specs::Reading::create_at))]
    fn create(&mut self, alloc: Global) -> Result<Action, ReaderFault>
        ensures { Gives (λ x. (x, self.new)) result (create_at self.old) }
    {
        let id = self.hash()?;
        let instance = self.instance(alloc)?;
        Ok(Action::Create { id, instance })
    }

    #[tactic(auto, unfolding(crate::specs::Reading::exercise_at, crate::specs::Reading::input_at))]
    fn exercise(&mut self, alloc: Global) -> Result<Action, ReaderFault>
        ensures { Gives (λ x. (x, self.new)) result (exercise_at self.old) }
    {
        let id = self.hash()?;
        let salt = self.hash()?;
        let instance = self.instance(alloc)?;
        let choice = self.name()?;
        let args = self.values(alloc)?;
        let actors = self.parties(alloc)?;
        let consuming = self.truth()?;
        let result = self.value(alloc)?;
        Ok(Action::Exercise {
            id,
            salt,
            instance,
            choice,
            args,
            actors,
            consuming,
            result,
        })
    }

    #[tactic(auto, unfolding(crate::specs::Reading::fetch_at, crate::specs::Reading::input_at))]
    fn fetch(&mut self, alloc: Global) -> Result<Action, ReaderFault>
        ensures { Gives (λ x. (x, self.new)) result (fetch_at self.old) }
    {
        let id = self.hash()?;
        let salt = self.hash()?;
        let instance = self.instance(alloc)?;
        let actors = self.parties(alloc)?;
        Ok(Action::Fetch {
            id,
            salt,
            instance,
            actors,
        })
    }
}

// The fields of a Struct by their names: where they repeat none, a table finds each at once.
ghost use Rattle.std.specs.Prelude.{◌≡◌, None, replicate, option_copied};
ghost use Rattle.supertype_place.specs.Names.{slots, TableOf, KeptFieldOr};
ghost use Rattle.supertype_place.specs.Viewed.{viewed_run};

use crate::view::{FlatField, FlatFields, FlatType, Found};

// How many slots a table has: one for the names of each remainder.
pub const SLOTS: usize = 512;

// What the union keeps of a field that has these before it and those behind it: its name with the name's last type,
// unless a field before it has the name.
pub fn keep<'a>(
    before: FlatFields<'a>,
    field: FlatField<'a>,
    behind: FlatFields<'a>,
) -> Option<FlatField<'a>>
    ensures { KeptFieldOr (viewed_run before.entry) field.entry (viewed_run behind.entry) result }
{
    let name = field.name;
    if before.has(name) {
        return None;
    }
    Some(FlatField {
        name,
        dtype: behind.last_of(name, field.dtype),
    })
}

// The fields, and a table of where they stand, where they repeat no name.
#[derive(Clone, Copy)]
pub struct Named<'a> {
    pub fields: FlatFields<'a>,
    pub table: Option<&'a [Option<u16>]>,
    pub ghost tells: { ∥ TableOf (option_copied table) fields ∥₁ },
}

impl<'a> Named<'a> {
    ghost use Rattle.std.specs.Prelude.{◌<◌, is_some, not, []};
    ghost use Rattle.supertype_nested.specs.Step.{repeats};
    ghost use Rattle.supertype_nested.specs.Union.{seen, with_names};
    ghost use Rattle.supertype_place.specs.Names.{Keeps, Known};
    ghost use Rattle.supertype_place.specs.Viewed.{viewed_run, FoundIn};

    // The fields, entered into a table.
    pub fn new(fields: FlatFields<'a>, table: &'a mut [Option<u16>]) -> Named<'a>
        requires { table.old ≡ replicate slots None }
        ensures same { result.fields ≡ fields.entry }
        ensures distinct { is_some result.table ≡ not (repeats [] (viewed_run fields.entry)) }
    {
        let mut rest = fields;
        while let Some(field) = rest.next() {
            let slot = field.name as usize % SLOTS;
            let before = fields.up_to(rest);
            if table[slot].is_none() {
                table[slot] = Some((fields.kinds.len() - field.dtype.kinds.len() - 1) as u16);
            } else if before.has(field.name) {
                return Named {
                    fields,
                    table: None,
                };
            }
        }
        Named {
            fields,
            table: Some(table),
        }
    }

    // The fields alone.
    pub fn plain(fields: FlatFields<'a>) -> Named<'a>
        ensures { result.fields ≡ fields.entry }
    {
        Named {
            fields,
            table: None,
        }
    }

    // The first field of the name.
    pub fn find(self, name: u64) -> Option<Found<'a>>
        ensures { FoundIn name (viewed_run self.entry.fields) result }
    {
        if let Some(table) = self.table {
            let at = table[name as usize % SLOTS]? as usize;
            if self.fields.args[at] == name {
                let next = at + 1;
                return Some(Found {
                    dtype: FlatType {
                        kinds: &self.fields.kinds[next..],
                        args: &self.fields.args[next..],
                    },
                    rest: self.fields.front(0),
                });
            }
        }
        self.fields.first_of(name)
    }

    // Whether a field has the name.
    pub fn has(self, name: u64) -> bool
        ensures { result ≡ seen (with_names (viewed_run self.entry.fields) []) name }
    {
        if self.table.is_none() {
            return self.fields.has(name);
        }
        self.find(name).is_some()
    }

    // Whether one of them, or one of those that stand before a field of another run, has the name.
    pub fn known(self, before: FlatFields, name: u64) -> bool
        ensures { let names = with_names (viewed_run self.entry.fields) [] in
            result ≡ seen (with_names (viewed_run before.entry) names) name }
    {
        self.has(name) || before.has(name)
    }

    // What the union keeps of a field of the longest, with `rest` behind it: its name with the name's last type, unless
    // a field before it has the name.
    pub fn kept(self, field: FlatField<'a>, rest: FlatFields<'a>) -> Option<FlatField<'a>>
        requires { rest.left < self.fields.left }
        ensures { Keeps (viewed_run self.entry.fields) field.entry rest.entry result }
    {
        if self.table.is_some() {
            return Some(field);
        }
        keep(self.fields.up_to(rest), field, rest)
    }

    // Whether a field of the longest, or one of the shortest before the one with `rest` behind it, has its name.
    pub fn knows(self, shortest: Named, field: FlatField, rest: FlatFields) -> bool
        requires { rest.left < shortest.fields.left }
        ensures { let fs = viewed_run self.entry.fields in
            Known fs (viewed_run shortest.entry.fields) field.entry rest.entry result }
    {
        if shortest.table.is_some() {
            return self.has(field.name);
        }
        self.known(shortest.fields.up_to(rest), field.name)
    }
}

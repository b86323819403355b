//! Which of the connections in a log is converted.
ghost use Rattle.std.specs.Prelude.{◌≡◌, IfOk, OnOk, option_map};
ghost use Rattle.std.specs.String.{string_bytes};
ghost use Rattle.qa_convert.specs.Connections.{is_of_chosen, none_named, number_of, numbered};
ghost use Rattle.qa_convert.specs.Connections.{numbering_of, with_name};

use std::alloc::{AllocError, Global};
use std::collections::BTreeMap;

/// The connections and paths that the records of one trace name, of which one is chosen.
///
/// Records that name none belong to each of them.
#[derive(Drop)]
pub(crate) struct Connections {
    alloc: Global,
    /// Which one, from 1 on.
    chosen: u64,
    /// Those that were named, by number in the order in which they came.
    numbers: BTreeMap<String, u64>,
    /// How many were named.
    pub(crate) count: u64,
}

impl Connections {
    /// Before the first record, if that number is chosen. Takes no memory.
    pub(crate) fn new(alloc: Global, chosen: u64) -> Connections
        ensures { numbering_of result ≡ none_named chosen }
    {
        Connections {
            alloc,
            chosen,
            numbers: BTreeMap::new(alloc),
            count: 0,
        }
    }

    /// Whether a record that names this group and this path is of the one that is chosen.
    pub(crate) fn has(
        &mut self,
        group: Option<&str>,
        path: Option<&str>,
    ) -> Result<bool, AllocError>
        ensures chosen { IfOk result (λ has. has ≡ is_of_chosen (numbering_of self.old)
            (option_map (λ s. s.now) group.entry) (option_map (λ s. s.now) path.entry)) }
        ensures named { OnOk result (numbering_of self.new ≡ numbered (numbering_of self.old)
            (option_map (λ s. s.now) group.entry) (option_map (λ s. s.now) path.entry)) }
    {
        if group.is_none() && path.is_none() {
            return Ok(true);
        }
        let mut name = String::new(self.alloc);
        if let Some(group) = group {
            name.push_str(group)?;
        }
        name.push_str(" ")?;
        if let Some(path) = path {
            name.push_str(path)?;
        }
        let number = self.number(name)?;
        Ok(number == self.chosen)
    }

    /// The number of a connection, by its name.
    fn number(&mut self, name: String) -> Result<u64, AllocError>
        ensures number { IfOk result (λ number. number
            ≡ number_of (numbering_of self.old) (string_bytes name)) }
        ensures named { OnOk result (numbering_of self.new
            ≡ with_name (numbering_of self.old) (string_bytes name)) }
        ensures chosen { self.new.chosen ≡ self.old.chosen }
    {
        if let Some(number) = self.numbers.get(name.as_str()) {
            return Ok(*number);
        }
        self.count = self.count.saturating_add(1);
        self.numbers.insert(name, self.count)?;
        Ok(self.count)
    }
}

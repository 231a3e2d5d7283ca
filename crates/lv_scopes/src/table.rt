ghost use Rattle.std.specs.Prelude.{◌≡◌, [], ◌∷◌, ◌++◌, length, not, bytes_eq, if◌then◌else◌, IfOk, OnOk, OnErr};
ghost use Rattle.std.specs.List.{list_any, position, position_or_len};
ghost use Rattle.lv_scopes.specs.NameLists.{listed};

use indexmap::IndexSet;
use lv_bits::NoMemory;
use std::alloc::Global;

/// Names, each once, with the number of its place in the order in which they came.
#[derive(Drop)]
pub struct NameTable {
    pub names: IndexSet<Vec<u8>>,
}

impl NameTable {
    /// No names.
    pub fn new(alloc: Global) -> NameTable
        ensures { listed result ≡ [] }
    {
        NameTable {
            names: IndexSet::new(alloc),
        }
    }

    /// How many names.
    pub fn len(&self) -> usize
        ensures { result ≡ length (listed self.now) }
    {
        self.names.len()
    }

    /// The number of a name, which is added where it is new, and whether it is. After `NoMemory` the names are unchanged.
    pub fn add(&mut self, alloc: Global, name: &[u8]) -> Result<(usize, bool), NoMemory>
        ensures number { IfOk result (λ r. r.0 ≡ position_or_len (bytes_eq name.now) (listed self.old)) }
        ensures added { IfOk result (λ r. r.1 ≡ not (list_any (bytes_eq name.now) (listed self.old))) }
        ensures names { OnOk result (listed self.new ≡
            (if list_any (bytes_eq name.now) (listed self.old) then listed self.old else listed self.old ++ name.now ∷ [])) }
        ensures kept { OnErr result (listed self.new ≡ listed self.old) }
    {
        let Ok(key) = Vec::from_slice(alloc, name) else {
            return Err(NoMemory);
        };
        let Ok(placed) = self.names.insert_full(key) else {
            return Err(NoMemory);
        };
        Ok(placed)
    }

    /// The number of a name.
    pub fn find(&self, name: &[u8]) -> Option<usize>
        ensures { result ≡ position (bytes_eq name.now) (listed self.now) }
    {
        self.names.get_index_of(name)
    }
}

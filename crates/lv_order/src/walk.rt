// The walk, depth first: a vertex is open while it stands on the path, and done once all its edges have been followed.
ghost use Rattle.std.specs.Prelude.{◌≡◌, ◌+◌, ◌-◌, ◌<◌, [], ◌∷◌, ◌++◌, length, slice_set, take, IfOk, OnOk};
ghost use Rattle.lv_order.specs.Graphs.{graph, IsGraph};
ghost use Rattle.lv_order.specs.Walks.{is_new, looked, walks, rest, IsTurn, IsEnd};

use lv_bits::NoMemory;
use std::alloc::Global;

/// Where the walk stands with a vertex.
#[derive(Clone, Copy)]
pub(crate) enum State {
    New,
    /// How many of its edges have been followed.
    Open(usize),
    Done,
}

/// What a turn leads to.
#[derive(Clone, Copy)]
pub(crate) enum Turn {
    Goes,
    Ends,
    /// The last vertex of the path has an edge to this one, which is on the path.
    Meets(usize),
}

/// The states of the vertices, the path, the vertices that are done, and the first vertex that no walk may have begun at.
#[derive(Drop)]
pub(crate) struct Walk {
    states: Vec<State>,
    path: Vec<usize>,
    list: Vec<usize>,
    root: usize,
}

impl State {
    fn is_new(self) -> bool
        ensures { result ≡ is_new self }
    {
        match self {
            State::New => true,
            State::Open(_) => false,
            State::Done => false,
        }
    }

    fn looked(self) -> usize
        ensures { result ≡ looked self }
    {
        match self {
            State::New => 0,
            State::Open(at) => at,
            State::Done => 0,
        }
    }
}

impl Walk {
    pub(crate) fn new(alloc: Global, edges: &[Vec<usize>]) -> Result<Walk, NoMemory>
        ensures { IfOk result (λ w. walks (graph edges.now) w) }
    {
        let none = State::New;
        let states = vec![in alloc; none; edges.len()]?;
        Ok(Walk {
            states,
            path: Vec::new(alloc),
            list: Vec::new(alloc),
            root: 0,
        })
    }

    pub(crate) fn path(&self) -> &[usize]
        ensures { result.now ≡ self.now.path.items }
    {
        self.path.as_slice()
    }

    pub(crate) fn into_list(self) -> Vec<usize>
        ensures { result ≡ self.list }
    {
        let Walk {
            states,
            path,
            list,
            root: _,
        } = self;
        drop(states);
        drop(path);
        list
    }

    fn open(&mut self, v: usize) -> Result<(), NoMemory>
        requires { v < length self.old.states.items }
        ensures states { OnOk result (self.new.states.items ≡ slice_set self.old.states.items v (State.Open 0)) }
        ensures path { OnOk result (self.new.path.items ≡ self.old.path.items ++ v ∷ []) }
        ensures list { OnOk result (self.new.list.items ≡ self.old.list.items) }
        ensures root { OnOk result (self.new.root ≡ self.old.root) }
    {
        self.states[v] = State::Open(0);
        self.path.push(v)?;
        Ok(())
    }

    fn close(&mut self, v: usize) -> Result<(), NoMemory>
        requires { v < length self.old.states.items }
        ensures states { OnOk result (self.new.states.items ≡ slice_set self.old.states.items v State.Done) }
        ensures path { OnOk result (self.new.path.items ≡ take (length self.old.path.items - 1) self.old.path.items) }
        ensures list { OnOk result (self.new.list.items ≡ self.old.list.items ++ v ∷ []) }
        ensures root { OnOk result (self.new.root ≡ self.old.root) }
    {
        self.states[v] = State::Done;
        let _ = self.path.pop();
        self.list.push(v)?;
        Ok(())
    }

    /// The path is empty: the next vertex at which no walk has begun.
    fn begin(&mut self, edges: &[Vec<usize>]) -> Result<Turn, NoMemory>
        requires walk { walks (graph edges.now) self.old }
        requires empty { self.old.path.items ≡ [] }
        ensures { IfOk result (λ t. IsTurn (graph edges.now) self.old self.new t) }
    {
        let root = self.root;
        if root >= edges.len() {
            return Ok(Turn::Ends);
        }
        if self.states[root].is_new() {
            self.open(root)?;
            return Ok(Turn::Goes);
        }
        self.root = root + 1;
        Ok(Turn::Goes)
    }

    /// The next edge of the last vertex of the path.
    fn look(&mut self, edges: &[Vec<usize>]) -> Result<Turn, NoMemory>
        requires graph { IsGraph (graph edges.now) }
        requires walk { walks (graph edges.now) self.old }
        requires some { 0 < length self.old.path.items }
        ensures { IfOk result (λ t. IsTurn (graph edges.now) self.old self.new t) }
    {
        let v = self.path[self.path.len() - 1];
        let at = self.states[v].looked();
        let row = &edges[v];
        if at >= row.len() {
            self.close(v)?;
            return Ok(Turn::Goes);
        }
        let w = row[at];
        match self.states[w] {
            State::New => {
                self.open(w)?;
                Ok(Turn::Goes)
            }
            State::Open(_) => Ok(Turn::Meets(w)),
            State::Done => {
                self.states[v] = State::Open(at + 1);
                Ok(Turn::Goes)
            }
        }
    }

    fn turn(&mut self, edges: &[Vec<usize>]) -> Result<Turn, NoMemory>
        requires graph { IsGraph (graph edges.now) }
        requires walk { walks (graph edges.now) self.old }
        ensures { IfOk result (λ t. IsTurn (graph edges.now) self.old self.new t) }
    {
        if self.path.is_empty() {
            self.begin(edges)
        } else {
            self.look(edges)
        }
    }

    /// All turns; the vertex that closes a cycle, if one does.
    pub(crate) fn run(&mut self, edges: &[Vec<usize>]) -> Result<Option<usize>, NoMemory>
        requires graph { IsGraph (graph edges.now) }
        requires walk { walks (graph edges.now) self.old }
        ensures { IfOk result (λ r. IsEnd (graph edges.now) self.new r) }
    {
        'turns: loop {
            match self.turn(edges)? {
                Turn::Goes => {}
                Turn::Ends => return Ok(None),
                Turn::Meets(v) => return Ok(Some(v)),
            }
        }
    }
}

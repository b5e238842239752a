// The meter of a walk. 01, "The walk": "Opening a node adds 1 to the count", and a node that is to be opened where the count
// already equals the budget stops the walk.
ghost use Rattle.std.specs.Prelude.{◌≡◌};
ghost use Rattle.walk.specs.Meter.{admit};

// The budget, and the nodes counted so far.
#[derive(Clone, Copy)]
pub(crate) struct Meter {
    pub(crate) budget: u32,
    pub(crate) count: u32,
}

// What stops a walk: the budget, which so many nodes have spent.
#[derive(Clone, Copy)]
pub(crate) struct Spent {
    pub(crate) opened: u32,
}

impl Meter {
    // The meter with one node more; asked once for every node, before anything else is done at it.
    pub(crate) fn open(self) -> Result<Meter, Spent>
        ensures { result ≡ admit self }
    {
        if self.count < self.budget {
            Ok(Meter {
                count: self.count + 1,
                ..self
            })
        } else {
            Err(Spent { opened: self.count })
        }
    }
}

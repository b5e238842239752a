// A hall that lies in the coded arrays.
ghost use Rattle.needed.specs.Loaded.{Loaded, Loaded-prop};

// The costs, the codes of all entries, the starts of the rules with the end of the last, and the number of rules. The arrays are lent.
#[derive(Clone, Copy)]
pub struct Coded<'a> {
    pub costs: &'a [u32],
    pub codes: &'a [u16; 16384],
    pub starts: &'a [u16; 2001],
    pub rules: usize,
    pub ghost loaded: { Loaded costs.now codes.now starts.now rules } by { Loaded-prop costs.now codes.now starts.now rules },
}

impl<'a> Coded<'a> {
    ghost use Rattle.needed.specs.Rules.{IsRule};

    // The codes of rule r; none behind the last rule.
    pub fn rule(self, r: usize) -> &'a [u16]
        ensures { IsRule self.entry r result.now }
    {
        let codes = self.codes;
        if r < self.rules {
            let from = self.starts[r] as usize;
            let end = self.starts[r + 1] as usize;
            &codes[from..end]
        } else {
            &codes[0..0]
        }
    }
}

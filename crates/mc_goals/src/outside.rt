ghost use Rattle.std.specs.Prelude.{◌≡◌, ℕ, [], ◌∷◌, ◌++◌, ◌<◌, ◌^◌, length, nat_lt, IfOk, OnOk};
ghost use Rattle.mc_model.specs.Lists.{once};

use mc_base::Memory;
use std::alloc::Global;

/// How often each variable occurs outside the goal that is looked at.
#[derive(Drop)]
pub struct Outside {
    pub counts: Vec<u32>,
}

impl Outside {
    ghost use Rattle.mc_goals.specs.code.Outside.{count, more, less, absent};

    /// No variable occurs outside.
    pub fn nothing(alloc: Global) -> Outside
        ensures { (w : ℕ) → count result w ≡ 0 }
    {
        Outside {
            counts: Vec::new(alloc),
        }
    }

    /// Whether a variable occurs outside.
    #[tactic(auto, unfolding(crate::specs::code::Outside::count))]
    pub fn has(&self, variable: u32) -> bool
        ensures { result ≡ nat_lt 0 (count self.now variable) }
    {
        let k = variable as usize;
        k < self.counts.len() && self.counts[k] > 0
    }

    /// A variable occurs outside once more.
    pub fn add(&mut self, variable: u32) -> Result<(), Memory>
        ensures { OnOk result (count self.new ≡ more (count self.old) (variable ∷ [])) }
    {
        let k = variable as usize;
        self.make_room(k)?;
        match self.counts[k].checked_add(1) {
            None => Err(Memory),
            Some(count) => {
                self.counts[k] = count;
                Ok(())
            }
        }
    }

    /// Puts counts at the end until there is one in this place.
    fn make_room(&mut self, place: usize) -> Result<(), Memory>
        ensures counts { OnOk result (count self.new ≡ count self.old) }
        ensures room { OnOk result (place < length self.new.counts.items) }
    {
        'room: while self.counts.len() <= place {
            self.counts.push(0)?;
        }
        Ok(())
    }

    /// A variable occurs outside once less.
    pub fn remove(&mut self, variable: u32)
        ensures { count self.new ≡ less (count self.old) (variable ∷ []) }
    {
        let k = variable as usize;
        if k < self.counts.len() {
            let count = self.counts[k];
            self.counts[k] = count.saturating_sub(1);
        }
    }

    /// Variables occur outside once more.
    pub fn add_all(&mut self, variables: &[u32]) -> Result<(), Memory>
        ensures { OnOk result (count self.new ≡ more (count self.old) variables.now) }
    {
        for variable in variables {
            self.add(*variable)?;
        }
        Ok(())
    }

    /// Variables occur outside once less.
    pub fn remove_all(&mut self, variables: &[u32])
        ensures { count self.new ≡ less (count self.old) variables.now }
    {
        for variable in variables {
            self.remove(*variable);
        }
    }

    /// Puts those of the variables at the end that don't occur outside.
    pub fn push_absent(&self, list: &mut Vec<u32>, variables: &[u32]) -> Result<(), Memory>
        ensures { OnOk result (list.new.items
            ≡ list.old.items ++ absent (count self.now) variables.now) }
    {
        for variable in variables {
            if !self.has(*variable) {
                list.push(*variable)?;
            }
        }
        Ok(())
    }

    /// Those of the variables that don't occur outside, each once.
    pub fn absent_once(&mut self, alloc: Global, variables: &[u32]) -> Result<Vec<u32>, Memory>
        ensures once { IfOk result (λ own. own.items
            ≡ once (absent (count self.old) variables.now)) }
        ensures kept { OnOk result (count self.new ≡ count self.old) }
    {
        let mut own = Vec::new(alloc);
        for variable in variables {
            self.add_new(&mut own, *variable)?;
        }
        self.remove_all(own.as_slice());
        Ok(own)
    }

    /// Puts a variable at the end that doesn't occur outside, where it then occurs.
    fn add_new(&mut self, list: &mut Vec<u32>, variable: u32) -> Result<(), Memory>
        ensures list { OnOk result (list.new.items
            ≡ list.old.items ++ absent (count self.old) (variable ∷ [])) }
        ensures counts { OnOk result (count self.new
            ≡ more (count self.old) (absent (count self.old) (variable ∷ []))) }
    {
        if self.has(variable) {
            return Ok(());
        }
        list.push(variable)?;
        self.add(variable)
    }
}

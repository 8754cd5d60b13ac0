//! Machines whose paths are searched.

ghost use Rattle.std.specs.Prelude.{◌≡◌, ◌<◌, ◌≤◌, ◌++◌, ◌∷◌, [], ℕ, List, Option, Result, length, slice_get, IsTrue, ◌↔◌, IfOk, OnOk, OnErr, IfSome};
ghost use Rattle.std.specs.List.{AllByRecursion, AllZip};
ghost use Rattle.kilim_isolation_paths.specs.Paths.{Machine, Has, target};

use kilim_units::{NoMemory, Seq};

/// How control leaves an instruction.
#[derive(Clone, Copy)]
pub enum Exit {
    /// It is done, and goes on at a place, or leads out.
    To(Option<u32>),
    /// What it raises or throws goes to the handler at a place.
    Handler(u32),
}

impl Exit {
    /// The place to which it leads, none where it leads out.
    pub fn target(&self) -> Option<u32>
        ensures { result ≡ target self.now }
    {
        match *self {
            Exit::To(to) => to,
            Exit::Handler(at) => Some(at),
        }
    }
}

/// A state that can be compared.
pub trait State: Drop {
    /// What its mark is.
    ghost marks: { Self → ℕ };

    fn is_same(&self, other: &Self) -> bool
        ensures { IsTrue result ↔ (self.now ≡ other.now) };

    /// A number by which different states are mostly told apart.
    fn mark(&self) -> u64
        ensures { result ≡ marks self.now };

    /// About how many bytes it takes. No answer depends on it.
    fn weight(&self) -> usize;
}

/// Places, the exits of each, and the steps.
pub trait Moves {
    type State: State;

    /// What it is.
    ghost means: { Self → Machine Self.State };

    /// What is known of a state that reaches a place.
    ghost fits: { Self → ℕ → Self.State → Type 0 };

    fn size(&self) -> usize
        ensures { result ≡ (means self.now).size };

    fn entry(&self) -> Result<Self::State, NoMemory>
        ensures place { 0 < (means self.now).size }
        ensures state { IfOk result (λ s. (s ≡ (means self.now).entry) × fits self.now 0 s) };

    /// The exits of a place.
    fn exits(&self, place: u32) -> Result<Seq<Exit>, NoMemory>
        requires { place < (means self.now).size }
        ensures exits { IfOk result (λ xs. xs ≡ (means self.now).exits place) }
        ensures within { IfOk result (λ xs. AllByRecursion (λ x. IfSome (target x) (λ q. q < (means self.now).size)) xs) };

    fn step(
        &self,
        place: u32,
        state: &Self::State,
        exit: Exit,
    ) -> Result<Result<Self::State, u8>, NoMemory>
        requires fits { fits self.now place state.now }
        requires exit { Has ((means self.now).exits place) exit }
        ensures step { IfOk result (λ r. r ≡ (means self.now).moves place state.now exit) }
        ensures fits { IfOk result (λ r. IfOk r (λ t. IfSome (target exit) (λ q. fits self.now q t))) };
}

//! Whether a visit may be made now.
ghost use Rattle.std.specs.Prelude.{◌≡◌, Bool, false, true};

/// What each worker asks before a visit and tells after it. All threads share it.
pub trait Gate: Sync {
    /// Whether it lets each visit be made at once.
    ghost is_open: { Self → Bool };

    /// Whether it lets no visit be made.
    ghost is_shut: { Self → Bool };

    /// Whether an actor that has made so many visits may make one more now.
    fn may_go(&self, actor: u32, done: u64) -> bool
        ensures open { is_open self.now ≡ true → result ≡ true }
        ensures shut { is_shut self.now ≡ true → result ≡ false };

    /// An actor has made so many visits.
    fn made(&self, actor: u32, done: u64);
}

/// A gate that is open.
pub struct OpenGate;

impl Gate for OpenGate {
    ghost is_open = { λ _. true };

    ghost is_shut = { λ _. false };

    fn may_go(&self, actor: u32, done: u64) -> bool {
        let _ = (actor, done);
        true
    }

    fn made(&self, actor: u32, done: u64) {
        let _ = (actor, done);
    }
}

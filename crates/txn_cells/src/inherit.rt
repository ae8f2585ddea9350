//! What a commit and what an access make of two values, and which values stand out.
ghost use Rattle.std.specs.Prelude.{◌≡◌, Bool, Option};

/// What a transaction has at a key, and what it is to inherit there from a child.
pub trait Inherit: Copy {
    ghost inherited: { Self → Option Self → Self };

    ghost joined: { Self → Option Self → Self };

    ghost outstanding: { Self → Bool };

    /// What the parent has once the child has committed into it, of what the child had and of what
    /// it had itself.
    fn inherit(child: Self, own: Option<Self>) -> Self
        ensures { result ≡ inherited child own };

    /// What a transaction has once an access of its own has added this to what it had.
    fn join(added: Self, own: Option<Self>) -> Self
        ensures { result ≡ joined added own };

    /// Whether whoever has this is to be found at its key without going through all that have a
    /// place there.
    fn stands_out(self) -> bool
        ensures { result ≡ outstanding self };
}

//! What is said of all that a command has to do with, as one word for clauses.

use crate::host::Surroundings;
use crate::store::EitherStore;
use durable_top::TopStore;
use txn_bytes::{Sink, Source};

/// Surroundings, an output and an error writer, by their types. A clause of a function over `H`,
/// `W` and `E` says by `⟦<(H, W, E) as Setting>⟧.world` what is said of the three.
pub trait Setting {
    ghost use Rattle.tx_machine.specs.Worlds.{World};

    type Host;

    type Text;

    type Memory;

    type Store;

    type Out;

    type Err;

    /// What is said of the surroundings, of a file and of a store that they give, of the output and
    /// of the error writer.
    ghost world: { World Self.Host Self.Text Self.Store Self.Memory Self.Out Self.Err };
}

impl<
    T: Source + Drop,
    M: TopStore + Send,
    S: TopStore + Send,
    H: Surroundings<Text = T, Memory = M, Store = S>,
    W: Sink,
    E: Sink,
> Setting for (H, W, E) {
    type Host = H;

    type Text = T;

    type Memory = M;

    type Store = S;

    type Out = W;

    type Err = E;

    ghost world = { record {
      host = H.Surroundings;
      file = T.Source;
      memory = M.TopStore;
      store = ⟦<EitherStore<M, S> as TopStore>⟧;
      out = W.Sink;
      err = E.Sink;
    } };
}

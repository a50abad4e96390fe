// A run of a scan over cells that the caller lends.
use crate::state::State;

/// A run over lent cells of any measure. It must be closed.
pub struct Run<'a, M> {
    pub(crate) cells: &'a mut [M],
    pub(crate) state: State,
}

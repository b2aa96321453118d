//! A figure as the words of its cell.
ghost use Rattle.std.specs.Prelude.{[], ◌∷◌};

use crossbeam_utils::atomic::seq_cell::Words;
use lb_base::Fig;

/// What stands in a cell: a figure, in seven words.
#[derive(Clone, Copy)]
pub struct Posted {
    /// The figure that was published last.
    pub fig: Fig,
}

impl Words<7> for Posted {
    ghost words = { λ p. p.fig.n ∷ p.fig.ticket ∷ p.fig.nr ∷ p.fig.load ∷ p.fig.util ∷ p.fig.runnable ∷ p.fig.flags ∷ [] };

    fn to_words(self) -> [u64; 7] {
        let fig = self.fig;
        [
            fig.n,
            fig.ticket,
            fig.nr,
            fig.load,
            fig.util,
            fig.runnable,
            fig.flags,
        ]
    }

    fn from_words(bits: &[u64; 7]) -> Posted {
        Posted {
            fig: Fig {
                n: bits[0],
                ticket: bits[1],
                nr: bits[2],
                load: bits[3],
                util: bits[4],
                runnable: bits[5],
                flags: bits[6],
            },
        }
    }
}

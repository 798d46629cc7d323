//! What tells one cluster from another, for all that stands behind its locks.

use std::marker::Brand;

/// Names one board, the layout of its cluster, the ledger of its turn, and whether its backends tell what they hold.
/// A program picks the four at one generic call, after the board was made.
pub trait Naming {
    ghost use Rattle.std.specs.Prelude.{ℕ, Bool};
    ghost use Rattle.atomic_table.specs.Seated.{TableId};
    ghost use Rattle.cj_place.specs.Layouts.{Layout};

    ghost board: { TableId };

    ghost layout: { Layout };

    ghost turn: { ℕ };

    /// Whether the backends tell what they hold, so that kept answers are known to be right.
    ghost tells: { Bool };
}

impl Naming for Brand {
    ghost use Rattle.std.specs.Prelude.{false};
    ghost use Rattle.cj_pass.specs.Named.{no_board, no_layout};

    ghost board = { no_board };

    ghost layout = { no_layout };

    ghost turn = { 0 };

    ghost tells = { false };
}

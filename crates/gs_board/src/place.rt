use std::marker::Brand;

/// Names one board, so that a type can say which board its parts are of.
pub trait Place {
    ghost use Rattle.atomic_table.specs.Seated.{TableId};

    ghost board: { TableId };
}

impl Place for Brand {
    ghost use Rattle.gs_board.specs.Views.{no_board};

    ghost board = { no_board };
}

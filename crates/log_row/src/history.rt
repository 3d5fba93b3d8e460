//! The name that values behind different locks have in common.
use std::marker::Brand;

/// Names one history. A function that is generic in the name is called with `Brand`, and the call picks which it is.
pub trait Row {
    ghost use Rattle.log_row.specs.LogPrefix.{RowName};

    ghost history: { RowName };
}

impl Row for Brand {
    ghost use Rattle.log_row.specs.LogPrefix.{no_row};

    ghost history = { no_row };
}

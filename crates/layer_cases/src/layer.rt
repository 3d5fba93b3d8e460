//! The layers.

/// A layer whose cases are read.
#[derive(Clone, Copy)]
pub(crate) enum Layer {
    Form,
    Tree,
    Load,
    Check,
    World,
    Sharing,
    Run,
    Bench,
}

impl Layer {
    /// The layer that this line says is to answer the lines behind it. None: the line is a case.
    pub(crate) fn named_by(line: &str) -> Option<Layer> {
        match line.strip_prefix("layer ")? {
            "form" => Some(Layer::Form),
            "tree" => Some(Layer::Tree),
            "load" => Some(Layer::Load),
            "check" => Some(Layer::Check),
            "world" => Some(Layer::World),
            "sharing" => Some(Layer::Sharing),
            "run" => Some(Layer::Run),
            "bench" => Some(Layer::Bench),
            _ => None,
        }
    }
}

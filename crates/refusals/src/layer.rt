ghost use Rattle.std.specs.Prelude.{◌≡◌};
ghost use Rattle.refusals.specs.Layers.{layer_number};

/// The layers of the engine, as refusals name them.
#[derive(Clone, Copy, PartialEq, Eq, Debug)]
pub enum Layer {
    Timetable,
    Notices,
    Planner,
    Queue,
}

impl Layer {
    /// The layer's number.
    pub fn number(self) -> u8
        ensures { result ≡ layer_number self }
    {
        match self {
            Layer::Timetable => 1,
            Layer::Notices => 2,
            Layer::Planner => 3,
            Layer::Queue => 4,
        }
    }
}

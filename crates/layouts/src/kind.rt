// What bodies of a type are made of.
ghost use Rattle.std.specs.Prelude.{◌≡◌};
ghost use Rattle.layouts.specs.Kinds.{kind_of};

#[derive(Clone, Copy, Debug, PartialEq, Eq)]
pub enum BodyKind {
    UserDefined,
    Sonar,
    Profile,
    SonarAndProfile,
    Settings,
    MultiSonar,
    // Fixed members, if the type has a layout.
    Members,
}

impl From<u32> for BodyKind {
    ghost from_gives = { λ t k. k ≡ kind_of t };

    fn from(data_type: u32) -> BodyKind {
        match data_type {
            11 => BodyKind::UserDefined,
            12 => BodyKind::Sonar,
            13 => BodyKind::Profile,
            14 => BodyKind::SonarAndProfile,
            15 => BodyKind::Settings,
            21 => BodyKind::MultiSonar,
            _ => BodyKind::Members,
        }
    }
}

//! Why an object is not moved, and why one may not shadow another.
use thiserror::Error;

/// Why an object is not moved, or does not begin to shadow.
#[derive(Debug, PartialEq, Eq, Drop, Error)]
pub enum PlaceFault {
    /// The object is a shadow.
    #[error("a shadow is not moved")]
    IsShadow,
    /// The destination is the object or inside it.
    #[error("it would contain itself")]
    WouldContainItself,
    /// Memory ran out.
    #[error("out of memory")]
    NoMemory,
}

/// Why an object may not shadow another one.
#[derive(Clone, Copy, Debug, PartialEq, Eq, Error)]
pub enum ShadowNo {
    /// They are the same.
    #[error("the same object")]
    Same,
    /// It shadows already.
    #[error("it shadows already")]
    AlreadyShadowing,
    /// It is shadowed itself.
    #[error("it is shadowed itself")]
    IsShadowed,
    /// It is in an environment.
    #[error("it is in an environment")]
    HasEnvironment,
    /// The other one is a shadow.
    #[error("the other one is a shadow")]
    VictimShadows,
}

//! The word for the layer of a fault.
pub use format::fault::layer_name;

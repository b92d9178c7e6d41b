// Document 01, "Layout": where members go; UDTs, AOIs, strings, the predefined types.
pub(crate) mod aoi;
pub(crate) mod decimals;
pub(crate) mod fixed;
pub(crate) mod host_names;
pub(crate) mod measure;
pub(crate) mod placing;
pub(crate) mod predefined;
pub(crate) mod store;
pub(crate) mod udt;

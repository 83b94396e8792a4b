// IPv4 packets with TCP or UDP in them: reading one, and redirecting one in place.
#![tactic(auto)]

pub mod bytes;
pub mod read;
pub mod redirect;

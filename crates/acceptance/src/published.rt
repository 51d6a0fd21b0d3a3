//! What a server publishes of itself, and its answers to control requests.

mod answering;
mod peer_views;
mod record;
mod unheard;

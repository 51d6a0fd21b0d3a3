//! The server for one thread: classes of datagrams, replies, and one operation after another.

mod book;
mod classing;
mod control;
mod exchanges;
mod reads;
mod reply;
mod responding;

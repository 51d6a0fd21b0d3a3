ghost use Rattle.std.specs.Prelude.{◌≡◌, ◌≤◌, ◌<◌, ◌∷◌, ◌++◌, [], Some, length, slice_get, OnOk, OnErr, map};
ghost use Rattle.access_rules.specs.declared.servers.TheConstants.{MAX_SERVERS};
ghost use Rattle.conf_file.specs.Servers.{words_of_server};
ghost use Rattle.conf_file.specs.declared.lists.TheConstants.{MAX_LISTEN};

use crate::servers::Server;
use access_rules::{MAX_SERVERS, ServerLine};
use net_addr::Addr;
use std::alloc::AllocError;
use std::marker::Model;

/// The most addresses at which a server listens.
pub const MAX_LISTEN: usize = 8;

/// At most 8 addresses, in the order of their lines.
#[derive(Drop)]
pub struct Addrs {
    addrs: Vec<Addr>,
}

impl Model for Addrs {
    ghost use Rattle.std.specs.Prelude.{◌≤◌, List, length};
    ghost use Rattle.net_addr.specs.declared.addr.Addr.{Addr};

    ghost Value = { List Addr };

    ghost view = { λ a. a.addrs.items };

    ghost invariant = { λ a. length a.addrs.items ≤ 8 };
}

impl Addrs {
    /// These addresses.
    pub fn of(addrs: Vec<Addr>) -> Addrs
        requires { length addrs.items ≤ MAX_LISTEN }
        ensures { result ≡ addrs.items }
    {
        Addrs { addrs }
    }

    /// How many there are.
    pub fn len(&self) -> usize
        ensures len { result ≡ length self.now }
        ensures at_most { length self.now ≤ MAX_LISTEN }
    {
        self.addrs.len()
    }

    /// The address at a place, counted from 0.
    pub fn get(&self, place: usize) -> Addr
        requires { place < length self.now }
        ensures { slice_get self.now place ≡ Some result }
    {
        self.addrs[place]
    }

    /// Appends an address.
    pub fn push(&mut self, addr: Addr) -> Result<(), AllocError>
        requires { length self.old < MAX_LISTEN }
        ensures pushed { OnOk result (self.new ≡ self.old ++ addr ∷ []) }
        ensures kept { OnErr result (self.new ≡ self.old) }
    {
        self.addrs.push(addr)?;
        Ok(())
    }
}

/// At most 32 upstream servers, in the order of their lines.
#[derive(Drop)]
pub struct ServerLines {
    servers: Vec<ServerLine>,
}

impl Model for ServerLines {
    ghost use Rattle.std.specs.Prelude.{◌≤◌, List, length, map};
    ghost use Rattle.conf_file.specs.Servers.{ServerWords, words_of_server};

    ghost Value = { List ServerWords };

    ghost view = { λ s. map words_of_server s.servers.items };

    ghost invariant = { λ s. length s.servers.items ≤ 32 };
}

impl ServerLines {
    /// These servers.
    pub fn of(servers: Vec<ServerLine>) -> ServerLines
        requires { length servers.items ≤ MAX_SERVERS }
        ensures { result ≡ map words_of_server servers.items }
    {
        ServerLines { servers }
    }

    /// How many there are.
    pub fn len(&self) -> usize
        ensures len { result ≡ length self.now }
        ensures at_most { length self.now ≤ MAX_SERVERS }
    {
        self.servers.len()
    }

    /// All of them, in the order of their lines.
    pub fn as_slice(&self) -> &[ServerLine]
        ensures lines { map words_of_server result.now ≡ self.now }
        ensures at_most { length result.now ≤ MAX_SERVERS }
    {
        self.servers.as_slice()
    }

    /// The server at a place, counted from 0.
    pub fn get(&self, place: usize) -> &ServerLine
        requires { place < length self.now }
        ensures { slice_get self.now place ≡ Some (words_of_server result.now) }
    {
        &self.servers[place]
    }

    /// Appends a server.
    pub fn push(&mut self, server: Server) -> Result<(), AllocError>
        requires { length self.old < MAX_SERVERS }
        ensures pushed { OnOk result (self.new ≡ self.old ++ server ∷ []) }
        ensures kept { OnErr result (self.new ≡ self.old) }
    {
        self.servers.push(server.into_line())?;
        Ok(())
    }
}

// What words name, opened.
ghost use Rattle.std.specs.Prelude.{◌≤◌, ◌^◌, length, IfOk};
ghost use Rattle.range_client.specs.Requests.{IsPath};

use byte_links::{TcpAccept, TcpLink};
use command_words::Stop;
use fgb_outside::FileSource;
use range_client::{ConnectError, RangeClient};
use std::alloc::Global;
use std::fs::File;
use std::io;
use std::io::{ErrorKind, Read};
use std::net::{Ipv4Addr, TcpListener, TcpStream};

/// The most bytes of a file that is served.
const LARGEST: u64 = 1 << 48;

/// Opens the file of this name.
pub(crate) fn open(rt: &HostRuntime, name: &str) -> Result<FileSource, Stop> {
    let Ok(file) = open_file(rt, name) else {
        return Err(Stop::SourceFailed);
    };
    match FileSource::new(file) {
        Ok(source) => Ok(source),
        Err(_) => Err(Stop::SourceFailed),
    }
}

/// Opens the file of this name, which is to be no folder.
fn open_file(rt: &HostRuntime, name: &str) -> io::Result<File> {
    let file = File::open(rt, name)?;
    if file.metadata()?.is_dir() {
        return Err(io::Error::from(ErrorKind::IsADirectory));
    }
    Ok(file)
}

/// Reads the whole file of this name.
pub(crate) fn read_whole(rt: &HostRuntime, name: &str) -> Result<Vec<u8>, Stop>
    ensures { IfOk result (λ image. length image.items ≤ 2 ^ 48) }
{
    let Ok(file) = open_file(rt, name) else {
        return Err(Stop::SourceFailed);
    };
    let image = read_to_end(rt.alloc(), file)?;
    if LARGEST < image.len() as u64 {
        return Err(Stop::TooLarge);
    }
    Ok(image)
}

/// Reads all of an opened file, if it is not too large.
fn read_to_end(alloc: Global, mut file: File) -> Result<Vec<u8>, Stop> {
    let Ok(metadata) = file.metadata() else {
        return Err(Stop::SourceFailed);
    };
    if LARGEST < metadata.len() {
        return Err(Stop::TooLarge);
    }
    let mut image = Vec::new(alloc);
    match file.read_to_end(&mut image) {
        Ok(_) => Ok(image),
        Err(error) if error.kind() == ErrorKind::OutOfMemory => Err(Stop::Memory),
        Err(_) => Err(Stop::SourceFailed),
    }
}

/// Connects to the server on this machine at this port, for the file at this path.
pub(crate) fn connect(rt: &HostRuntime, port: u16, path: &str) -> Result<RangeClient<TcpLink>, Stop>
    requires { IsPath path.now }
{
    let Ok(stream) = TcpStream::connect(rt, (Ipv4Addr::LOCALHOST, port)) else {
        return Err(Stop::SourceFailed);
    };
    match RangeClient::connect(rt.alloc(), TcpLink::new(stream), path) {
        Ok(client) => Ok(client),
        Err(refused) => Err(stop_of(&refused.error)),
    }
}

/// Why there is nothing to read, where there is no client.
fn stop_of(error: &ConnectError) -> Stop {
    match error {
        ConnectError::Memory => Stop::Memory,
        ConnectError::LinkFailed => Stop::SourceFailed,
        ConnectError::BadReply(_, _) => Stop::SourceFailed,
    }
}

/// Listens at this port of this machine.
pub(crate) fn listen(rt: &HostRuntime, port: u16) -> Result<TcpAccept, Stop> {
    match TcpListener::bind(rt, (Ipv4Addr::LOCALHOST, port)) {
        Ok(listener) => Ok(TcpAccept::new(listener)),
        Err(_) => Err(Stop::SourceFailed),
    }
}

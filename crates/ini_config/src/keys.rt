//! The keys of `[pgbouncer]`.
ghost use Rattle.std.specs.Prelude.{◌≡◌, ◌<◌, ◌≤◌, ◌^◌, OnErr};
ghost use Rattle.std.specs.Option.{ForSome};

use crate::fault::IniCode;
use crate::text::number_in;
use crate::values::{address_value, once, peer_value, size_value};
use pg_ids::PeerNo;
use std::alloc::Global;

/// What a key sets.
#[derive(Clone, Copy, Debug, PartialEq, Eq)]
pub(crate) enum KeyName {
    PoolMode,
    AuthType,
    ListenAddr,
    ListenPort,
    PeerId,
    DefaultPoolSize,
    MaxClientConn,
}

/// When a link goes back to the pool.
#[derive(Clone, Copy, Debug, PartialEq, Eq)]
pub(crate) enum PoolMode {
    Transaction,
}

/// How clients log in.
#[derive(Clone, Copy, Debug, PartialEq, Eq)]
pub(crate) enum AuthType {
    Trust,
}

impl KeyName {
    ghost use Rattle.ini_config.specs.Keys.{key_name};

    #[tactic(auto, unfolding(crate::specs::Keys::key_name))]
    pub(crate) fn of(text: &str) -> Result<KeyName, IniCode>
        ensures { result ≡ key_name text.now }
    {
        match text {
            "pool_mode" => Ok(KeyName::PoolMode),
            "auth_type" => Ok(KeyName::AuthType),
            "listen_addr" => Ok(KeyName::ListenAddr),
            "listen_port" => Ok(KeyName::ListenPort),
            "peer_id" => Ok(KeyName::PeerId),
            "default_pool_size" => Ok(KeyName::DefaultPoolSize),
            "max_client_conn" => Ok(KeyName::MaxClientConn),
            _ => Err(IniCode::UnknownKey),
        }
    }
}

impl PoolMode {
    ghost use Rattle.ini_config.specs.Keys.{pool_mode_value};

    #[tactic(auto, unfolding(crate::specs::Keys::pool_mode_value))]
    fn of(text: &str) -> Result<PoolMode, IniCode>
        ensures { result ≡ pool_mode_value text.now }
    {
        match text {
            "transaction" => Ok(PoolMode::Transaction),
            _ => Err(IniCode::NotInProfile),
        }
    }
}

impl AuthType {
    ghost use Rattle.ini_config.specs.Keys.{auth_type_value};

    #[tactic(auto, unfolding(crate::specs::Keys::auth_type_value))]
    fn of(text: &str) -> Result<AuthType, IniCode>
        ensures { result ≡ auth_type_value text.now }
    {
        match text {
            "trust" => Ok(AuthType::Trust),
            _ => Err(IniCode::NotInProfile),
        }
    }
}

/// What has been read of `[pgbouncer]` so far.
#[derive(Drop)]
pub(crate) struct PoolerKeys {
    pub pool_mode: Option<PoolMode>,
    pub auth_type: Option<AuthType>,
    pub listen_addr: Option<String>,
    pub listen_port: Option<u16>,
    pub peer_id: Option<PeerNo>,
    pub default_pool_size: Option<u16>,
    pub max_client_conn: Option<u32>,
    ghost some_port: { ForSome listen_port (λ n. 0 < n) },
    ghost some_pool: { ForSome default_pool_size (λ n. 0 < n) },
    ghost some_clients: { ForSome max_client_conn (λ n. (0 < n) × (n ≤ 2 ^ 16)) },
}

impl PoolerKeys {
    ghost use Rattle.ini_config.specs.Reads.{Gives};
    ghost use Rattle.ini_config.specs.Keys.{key_given, no_keys};
    ghost use Rattle.ini_config.specs.View.{keys_seen};

    /// Nothing has been read.
    pub(crate) fn new() -> PoolerKeys
        ensures { keys_seen result ≡ no_keys }
    {
        PoolerKeys {
            pool_mode: None,
            auth_type: None,
            listen_addr: None,
            listen_port: None,
            peer_id: None,
            default_pool_size: None,
            max_client_conn: None,
        }
    }

    /// One more key's value. Where it is refused, nothing changes.
    #[tactic(auto, unfolding(crate::specs::Keys::key_given))]
    pub(crate) fn give(&mut self, alloc: Global, name: KeyName, text: &str) -> Result<(), IniCode>
        ensures gives { Gives (λ _. keys_seen self.new) result
            (key_given (keys_seen self.old) name text.now) }
        ensures kept { OnErr result (keys_seen self.new ≡ keys_seen self.old) }
    {
        match name {
            KeyName::PoolMode => once(&mut self.pool_mode, PoolMode::of(text)),
            KeyName::AuthType => once(&mut self.auth_type, AuthType::of(text)),
            KeyName::ListenAddr => once(&mut self.listen_addr, address_value(alloc, text)),
            KeyName::ListenPort => once(&mut self.listen_port, size_value(text)),
            KeyName::PeerId => once(&mut self.peer_id, peer_value(0, text)),
            KeyName::DefaultPoolSize => once(&mut self.default_pool_size, size_value(text)),
            KeyName::MaxClientConn => once(&mut self.max_client_conn, number_in(1, 65536, text)),
        }
    }
}

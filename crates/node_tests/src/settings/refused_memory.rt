//! A settings file that is read while any allocation may fail.
use ini_config::{IniCode, IniError, read_settings};

// Any allocation may fail: then the fault is out of memory, with line 0.
#[test]
fn each_allocation(rt: HostRuntime) {
    let text = "[pgbouncer]\npool_mode=transaction\nauth_type=trust\nlisten_addr=a\n[databases]\n\
        a=host=b port=1 user=c dbname=d\n[peers]\n2=host=b port=1";
    match read_settings(rt.alloc(), text) {
        Ok(settings) => assert_eq!(rt; settings.listen_addr(), "a"),
        Err(fault) => assert_eq!(rt;
            fault,
            IniError {
                line: 0,
                code: IniCode::Memory
            }
        ),
    }
}

//! What of a configuration is ignored, as people see it.
use am_config::dropped::IgnoredSettings;
use am_console::console::shown;

/// Says what of a configuration is ignored, if something is.
pub fn say_ignored<R: Eprint>(rt: &R, path: &str, ignored: IgnoredSettings) {
    if ignored.is_something() {
        let file = shown(path);
        let _ = eprintln!(rt; "{file}: ignored: {ignored}");
    }
}

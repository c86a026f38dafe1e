// Options that are not taken: whose work they are, or what stands here for them.
use crate::parts::{begins_with_any, has};
use uw_base::texts::is_any;

const WEB_SERVER: &[u8] = b" is the web server's work, see docs/MIGRATE.md";

const LOG: &[u8] =
    b" is the web server's work, which writes the log of requests, see docs/MIGRATE.md";

const APPLICATION: &[u8] = b" is for an interpreter, and there is none here, see docs/MIGRATE.md";

const SERVICE: &[u8] = b" is the work of what runs the service, as systemd, see docs/MIGRATE.md";

const CRON: &[u8] = b" is the work of cron, see docs/MIGRATE.md";

const MULE: &[u8] = b" is not there: put a task aside by a rule, see docs/SPOOL.md";

const SPOOLER: &[u8] = b" is not there: rules run the tasks, see docs/SPOOL.md";

const OLD_CACHE: &[u8] =
    b" is not there: write `cache2 = name=NAME,items=NUMBER` for each cache, see docs/CONFIG.md";

const PLACEHOLDER: &[u8] =
    b" is not there: write each value out, in one file with one section, see docs/MIGRATE.md";

const SOCKET: &[u8] = b" is not there: write `socket`";

const WORKERS: &[u8] = b" is not there: write `processes`";

const SUBJECT: &[u8] =
    b" is not there: write `route-if = regexp:${VARIABLE};PATTERN ACTION`, see docs/RULES.md";

const HEADER: &[u8] = b" is not there: write `route-run = addheader:NAME: VALUE`";

const BEHIND: &[u8] = b" is not there: no rule runs behind a reply, see docs/RULES.md";

const SURPLUS: &[u8] = b" is not there: leave it out";

const HYPHEN: &[u8] = b" is no option here: names of options have `-` and no `_`";

const UNKNOWN: &[u8] = b" is no option here: docs/CONFIG.md has them all";

/// Names, and what is said of each.
struct Work {
    names: &'static [&'static [u8]],
    advice: &'static [u8],
}

// By whole names.
const NAMES: [Work; 7] = [
    Work {
        names: &[b"cache"],
        advice: OLD_CACHE,
    },
    Work {
        names: &[b"s", b"uwsgi-socket", b"shared-socket", b"puwsgi-socket"],
        advice: SOCKET,
    },
    Work {
        names: &[b"p", b"worker"],
        advice: WORKERS,
    },
    Work {
        names: &[b"add-header"],
        advice: HEADER,
    },
    Work {
        names: &[
            b"set", b"ini", b"for", b"endfor", b"endif", b"include", b"inherit", b"config",
        ],
        advice: PLACEHOLDER,
    },
    Work {
        names: &[
            b"app",
            b"mount",
            b"worker-mount",
            b"home",
            b"pp",
            b"eval",
            b"import",
            b"vhost",
        ],
        advice: APPLICATION,
    },
    Work {
        names: &[
            b"cap", b"chroot", b"umask", b"idle", b"mode", b"loop", b"udp", b"zerg",
        ],
        advice: SERVICE,
    },
];

// By how a name begins; the first that fits is taken.
const BEGINNINGS: [Work; 17] = [
    Work {
        names: &[
            b"http",
            b"ssl",
            b"suwsgi",
            b"fastcgi",
            b"scgi",
            b"raw-",
            b"static-",
            b"check-static",
            b"offload",
        ],
        advice: WEB_SERVER,
    },
    Work {
        names: &[
            b"fastrouter",
            b"rawrouter",
            b"sslrouter",
            b"sni",
            b"websocket",
            b"file",
            b"mime",
            b"error-page",
        ],
        advice: WEB_SERVER,
    },
    Work {
        names: &[
            b"rem-header",
            b"del-header",
            b"collect-header",
            b"pull-header",
            b"chunked",
            b"upload",
            b"honour",
        ],
        advice: WEB_SERVER,
    },
    Work {
        names: &[
            b"log",
            b"req-logger",
            b"threaded-logger",
            b"not-log",
            b"not-alarm",
        ],
        advice: LOG,
    },
    Work {
        names: &[
            b"module",
            b"wsgi",
            b"callable",
            b"manage-script",
            b"py",
            b"venv",
            b"virtualenv",
            b"env",
        ],
        advice: APPLICATION,
    },
    Work {
        names: &[
            b"psgi", b"perl", b"rack", b"rb-", b"ruby", b"php", b"lua", b"cgi", b"jvm", b"mono",
            b"paste",
        ],
        advice: APPLICATION,
    },
    Work {
        names: &[
            b"gevent",
            b"async",
            b"greenlet",
            b"lazy",
            b"single-interpreter",
            b"shared-",
            b"ini-paste",
            b"no-default",
        ],
        advice: APPLICATION,
    },
    Work {
        names: &[b"response-route", b"error-route", b"final-route"],
        advice: BEHIND,
    },
    Work {
        names: &[
            b"daemonize",
            b"touch-",
            b"emperor",
            b"vassal",
            b"reload-",
            b"hook-",
            b"cheap",
            b"procname",
            b"auto-proc",
        ],
        advice: SERVICE,
    },
    Work {
        names: &[
            b"max-",
            b"min-",
            b"worker-",
            b"die-on-idle",
            b"attach-",
            b"smart-attach",
            b"exec-",
            b"mount-",
            b"call-",
        ],
        advice: SERVICE,
    },
    Work {
        names: &[
            b"safe-pidfile",
            b"pidfile2",
            b"limit-",
            b"no-orphans",
            b"legion",
            b"master-",
            b"cgroup",
            b"cpu-",
            b"prio",
        ],
        advice: SERVICE,
    },
    Work {
        names: &[
            b"stats",
            b"memory-report",
            b"metric",
            b"enable-metrics",
            b"snmp",
            b"carbon",
            b"alarm",
            b"subscri",
        ],
        advice: SERVICE,
    },
    Work {
        names: &[b"cron", b"unique-cron"],
        advice: CRON,
    },
    Work {
        names: &[
            b"mule", b"farm", b"signal", b"timer", b"rbtimer", b"queue", b"rpc",
        ],
        advice: MULE,
    },
    Work {
        names: &[b"spooler-"],
        advice: SPOOLER,
    },
    Work {
        names: &[
            b"cache-",
            b"add-cache",
            b"load-file-in-cache",
            b"check-cache",
        ],
        advice: OLD_CACHE,
    },
    Work {
        names: &[
            b"set-", b"if-", b"for-", b"end-", b"xml", b"yaml", b"yml", b"json", b"print",
        ],
        advice: PLACEHOLDER,
    },
];

// What is left out, by how a name begins.
const LEFT_OUT: [&[u8]; 11] = [
    b"post-buffering",
    b"harakiri-",
    b"socket-",
    b"so-",
    b"tcp-",
    b"ignore-",
    b"disable-",
    b"close-on-",
    b"need-",
    b"buffer-",
    b"thread",
];

/// What is said of an option that is not taken.
pub fn advice_on_option(name: &[u8]) -> &'static [u8] {
    for work in &NAMES {
        if is_any(name, work.names) {
            return work.advice;
        }
    }
    if name.starts_with(b"route-") {
        return SUBJECT;
    }
    for work in &BEGINNINGS {
        if begins_with_any(name, work.names) {
            return work.advice;
        }
    }
    if begins_with_any(name, &LEFT_OUT) {
        return SURPLUS;
    }
    if has(name, b"_") {
        return HYPHEN;
    }
    UNKNOWN
}

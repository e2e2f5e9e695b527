//! Each network of the folder `examples`, with its whole report.
use crate::texts::replies;
use std::test::Fail;

/// The name of the file, its text, its status and its report.
const EXAMPLES: [(&str, &str, u8, &str); 13] = [
    (
        "balancer.amdl",
        "# A balancer: it picks a server for each new flow, and keeps a flow at the server that it picked.
# Asked: does a server get a packet that is marked for the other one? SAFE: the switch behind the balancer sends each
# packet where its mark says.
network balancer;
type Flow = {f0, f1};
type Server = {none, red, blue};
field flow : Flow;
field server : Server;
middlebox balancer {
  port front, pool;
  relation placed(Flow, Server);
  on front : {
    if has placed(flow, red) -> {
      output pool [server := red];
    } | has placed(flow, blue) -> {
      output pool [server := blue];
    } | not has placed(flow, red) and not has placed(flow, blue) -> {
      pick choice : Server in {
        if choice != none -> {
          insert placed(flow, choice);
          output pool [server := choice];
        } fi
      }
    } fi
  }
}
middlebox switch {
  port up, to_red, to_blue;
  on up : {
    if server = red -> {
      output to_red;
    } | server = blue -> {
      output to_blue;
    } fi
  }
}
host clients;
host red_server;
host blue_server;
box lb : balancer;
box sw : switch;
link clients -- lb.front;
link lb.pool -- sw.up;
link sw.to_red -- red_server;
link sw.to_blue -- blue_server;
sends clients : server = none;
forbid red_server : server = blue;
forbid blue_server : server = red;
",
        0,
        "network balancer hosts 3 boxes 2 packets 6\nfacts out 10 state 24 abort 0\nSAFE\n",
    ),
    (
        "cache.amdl",
        "# A cache: it asks the server once, keeps what it says, and then answers by itself.
# Asked: does the client ever get a question, or an answer that names itself as the one who gave it? SAFE: answers come
# from the server or out of the cache, which writes the server's name into them.
network cache;
type Addr = {client, server};
type Kind = {ask, answer};
field src : Addr;
field dst : Addr;
field kind : Kind;
middlebox cache {
  port down, up;
  relation kept(Addr);
  on down : {
    if kind = ask and has kept(dst) -> {
      output down [src := dst, dst := src, kind := answer];
    } | kind = ask and not has kept(dst) -> {
      output up;
    } fi
  }
  on up : {
    if kind = answer -> {
      insert kept(src);
      output down;
    } fi
  }
}
host browser;
host site;
box store : cache;
link browser -- store.down;
link store.up -- site;
sends browser : src = client, dst = server, kind = ask;
sends site : src = server, dst = client;
forbid browser : kind = ask;
forbid browser : src = client;
",
        0,
        "network cache hosts 2 boxes 1 packets 8\nfacts out 5 state 12 abort 0\nSAFE\n",
    ),
    (
        "detector.amdl",
        "# An intrusion detector that stops everything where one sender touches both a low and a high port.
# Asked: can it come to that? ALARM: the scanner sends to any port, so the box aborts at its second packet.
network detector;
type Addr = {user, scanner};
type Port = {low, high};
field src : Addr;
field socket : Port;
middlebox detector {
  port wire, tap;
  relation touched(Addr, Port);
  on wire : {
    insert touched(src, socket);
    if has touched(src, low) and has touched(src, high) -> {
      abort;
    } fi
    output tap;
  }
}
host net;
host log;
box ids : detector;
link net -- ids.wire;
link ids.tap -- log;
sends net : src = user, socket = low;
sends net : src = scanner;
",
        1,
        "network detector hosts 2 boxes 1 packets 4\nfacts out 6 state 10 abort 2\nALARM 2\nabort ids 2 : src = scanner, socket = low\nabort ids 3 : src = scanner, socket = high\n",
    ),
    (
        "false-alarm.amdl",
        "# An alarm that no run makes true. A claim of `early` counts only before the key is turned, one of `late` only after
# that, and turning the key takes the early claim back: so both never stand together.
# Asked: does a check find both? ALARM, and a false one: of the check's packet the analysis knows whether `early` and
# `late` stand, but not that `late` can stand only where `key` does, since that packet asks nothing of `key`.
# A check that also asks for the key, `has done(key)`, makes the network SAFE.
network false_alarm;
type Kind = {turn, claim, check};
type Mark = {key, early, late};
field kind : Kind;
field mark : Mark;
field other : Mark;
middlebox lock {
  port entry, exit;
  relation done(Mark);
  on entry : {
    if kind = turn -> {
      insert done(key);
      remove done(early);
    } | kind = claim and mark = early and other = key and not has done(other) -> {
      insert done(early);
    } | kind = claim and mark = late and other = key and has done(other) -> {
      insert done(late);
    } | kind = check and mark = early and other = late and has done(mark) and has done(other) -> {
      output exit;
    } fi
  }
}
host people;
host alarm;
box safe : lock;
link people -- safe.entry;
link safe.exit -- alarm;
sends people : true;
forbid alarm : true;
",
        1,
        "network false_alarm hosts 2 boxes 1 packets 27\nfacts out 28 state 78 abort 0\nALARM 1\ndeliver alarm 23 from safe.exit : kind = check, mark = early, other = late\n",
    ),
    (
        "firewall-cache.amdl",
        "# A firewall that keeps the guest from the server, and a cache before it.
# Asked: does an answer of the server reach the guest? ALARM: staff asks the server, the cache keeps the answer, and
# gives it to the guest. The firewall never sees the guest's question.
network firewall_cache;
type Addr = {staff, guest, server};
type Kind = {ask, answer};
field src : Addr;
field dst : Addr;
field kind : Kind;
middlebox firewall {
  port lan, wan;
  relation allowed(Addr);
  on lan : {
    if has allowed(src) -> {
      output wan;
    } fi
  }
  on wan : {
    if has allowed(dst) -> {
      output lan;
    } fi
  }
}
middlebox cache {
  port staff_side, guest_side, up;
  relation kept(Addr);
  on staff_side : {
    output up;
  }
  on guest_side : {
    if has kept(dst) -> {
      output guest_side [src := dst, dst := src, kind := answer];
    } | not has kept(dst) -> {
      output up;
    } fi
  }
  on up : {
    insert kept(src);
    output staff_side;
  }
}
host alice;
host visitor;
host files;
box store : cache;
box fw : firewall with allowed(staff);
link alice -- store.staff_side;
link visitor -- store.guest_side;
link store.up -- fw.lan;
link fw.wan -- files;
sends alice : src = staff, dst = server, kind = ask;
sends visitor : src = guest, dst = server, kind = ask;
sends files : src = server, kind = answer;
forbid visitor : src = server;
",
        1,
        "network firewall_cache hosts 3 boxes 2 packets 18\nfacts out 11 state 42 abort 0\nALARM 1\ndeliver visitor 15 from store.guest_side : src = server, dst = guest, kind = answer\n",
    ),
    (
        "firewall.amdl",
        "# A stateful firewall: the desk may ask anyone, and only those that it asked may answer.
# Asked: does a packet from the attacker reach the desk? SAFE: the desk asks the web server alone, so `asked` never
# holds the attacker, whatever the internet sends, and a restart only empties the table.
network firewall;
type Addr = {desk, web, attacker};
field src : Addr;
field dst : Addr;
middlebox firewall {
  port inside, outside;
  relation asked(Addr);
  on inside : {
    insert asked(dst);
    output outside;
  }
  on outside : {
    if has asked(src) -> {
      output inside;
    } fi
  }
}
host office;
host internet;
box fw : firewall;
link office -- fw.inside;
link fw.outside -- internet;
sends office : src = desk, dst = web;
sends internet : dst = desk;
forbid office : src = attacker;
",
        0,
        "network firewall hosts 2 boxes 1 packets 9\nfacts out 6 state 12 abort 0\nSAFE\n",
    ),
    (
        "gate.amdl",
        "# A gate that opens once for each ticket, and takes the ticket.
# Asked: does anyone without a ticket get in? SAFE. Nobody counts here: after a restart the tickets are back.
network gate;
type Person = {guest, stranger};
field who : Person;
middlebox gate {
  port street, hall;
  relation ticket(Person);
  on street : {
    if has ticket(who) -> {
      remove ticket(who);
      output hall;
    } fi
  }
}
host queue;
host party;
box door : gate with ticket(guest);
link queue -- door.street;
link door.hall -- party;
sends queue : true;
forbid party : who = stranger;
",
        0,
        "network gate hosts 2 boxes 1 packets 2\nfacts out 3 state 3 abort 0\nSAFE\n",
    ),
    (
        "nat.amdl",
        "# An address translator with a table: it opens a port for a machine inside, and lets answers to that port in.
# Asked: does the internet see an inner address, and does anything reach the printer, which never opened a port? SAFE.
network nat;
type Addr = {laptop, printer, public, site};
type Port = {p0, p1};
field src : Addr;
field dst : Addr;
field socket : Port;
middlebox translator {
  port inside, outside;
  relation open(Port, Addr);
  on inside : {
    insert open(socket, src);
    output outside [src := public];
  }
  on outside : {
    if dst = public -> {
      pick machine : Addr in {
        if has open(socket, machine) -> {
          output inside [dst := machine];
        } fi
      }
    } fi
  }
}
host lan;
host internet;
box nat : translator;
link lan -- nat.inside;
link nat.outside -- internet;
sends lan : src = laptop, dst = site, socket = p0;
sends internet : src = site;
forbid internet : src = laptop;
forbid internet : src = printer;
forbid lan : dst = printer;
forbid lan : socket = p1;
",
        0,
        "network nat hosts 2 boxes 1 packets 32\nfacts out 11 state 48 abort 0\nSAFE\n",
    ),
    (
        "proxy.amdl",
        "# A proxy that rewrites the sender: what leaves the house carries the proxy's own address.
# Asked: does the outside ever see an address of the house? SAFE: the one packet that goes out is a changed one.
network proxy;
type Addr = {alice, bob, proxy, site};
field src : Addr;
field dst : Addr;
middlebox rewriter {
  port house, street;
  relation waits(Addr);
  on house : {
    insert waits(src);
    output street [src := proxy];
  }
  on street : {
    if dst = proxy -> {
      pick who : Addr in {
        if has waits(who) -> {
          remove waits(who);
          output house [dst := who];
        } fi
      }
    } fi
  }
}
host home;
host world;
box px : rewriter;
link home -- px.house;
link px.street -- world;
sends home : src = alice, dst = site;
sends home : src = bob, dst = site;
sends world : src = site;
forbid world : src = alice;
forbid world : src = bob;
forbid home : dst = site;
",
        0,
        "network proxy hosts 2 boxes 1 packets 16\nfacts out 9 state 64 abort 0\nSAFE\n",
    ),
    (
        "relays.amdl",
        "# A ring of three relays: what comes in once goes round for ever.
# Asked: does it come back to the sender, or out at the monitor's socket? SAFE: no relay puts anything out there.
network relays;
type Color = {green, amber};
field color : Color;
middlebox relay {
  port socket, next, before;
  on socket : {
    output next;
  }
  on before : {
    output next;
  }
}
host sender;
host monitor;
box one : relay;
box two : relay;
box three : relay;
link sender -- one.socket;
link monitor -- two.socket;
link one.next -- two.before;
link two.next -- three.before;
link three.next -- one.before;
sends sender : color = green;
forbid sender : true;
forbid monitor : true;
",
        0,
        "network relays hosts 2 boxes 3 packets 2\nfacts out 4 state 6 abort 0\nSAFE\n",
    ),
    (
        "restart.amdl",
        "# A filter whose list a restart brings back. The contractor may get answers until the admin takes that back; the order
# to do so goes through the filter to the store, which gives answers only from then on.
# Asked: does the contractor get an answer? ALARM: the filter restarts, and has its first list again. Without a restart
# no run does it, since each answer comes behind the order.
network restart;
type User = {staff, contractor};
type Kind = {order, ask, answer};
field user : User;
field kind : Kind;
middlebox filter {
  port admin_side, user_side, store_side;
  relation allowed(User);
  on admin_side : {
    remove allowed(user);
    output store_side;
  }
  on user_side : {
    output store_side;
  }
  on store_side : {
    if has allowed(user) -> {
      output user_side;
    } fi
  }
}
middlebox store {
  port door;
  relation begun(Kind);
  on door : {
    if kind = order -> {
      insert begun(order);
    } | kind = ask and has begun(order) -> {
      output door [kind := answer];
    } fi
  }
}
host admin;
host desk;
box list : filter with allowed(contractor);
box files : store;
link admin -- list.admin_side;
link desk -- list.user_side;
link list.store_side -- files.door;
sends admin : user = contractor, kind = order;
sends desk : user = contractor, kind = ask;
forbid desk : kind = answer;
",
        1,
        "network restart hosts 2 boxes 2 packets 6\nfacts out 6 state 21 abort 0\nALARM 1\ndeliver desk 5 from list.user_side : user = contractor, kind = answer\n",
    ),
    (
        "wire-safe.amdl",
        "network wire;
type Addr = {a, b};
field src : Addr;
field dst : Addr;
host p;
host q;
link p -- q;
sends p : src = a;
forbid q : src = b;
",
        0,
        "network wire hosts 2 boxes 0 packets 4\nfacts out 2 state 0 abort 0\nSAFE\n",
    ),
    (
        "wire.amdl",
        "network wire;
type Addr = {a, b};
field src : Addr;
field dst : Addr;
host p;
host q;
link p -- q;
sends p : src = a;
forbid q : src = a, dst = b;
",
        1,
        "network wire hosts 2 boxes 0 packets 4\nfacts out 2 state 0 abort 0\nALARM 1\ndeliver q 1 from p : src = a, dst = b\n",
    ),
];

#[test]
fn each_example(rt: HostRuntime) -> Result<(), Fail> {
    for (name, text, status, report) in &EXAMPLES {
        let replied = replies(
            rt.alloc(),
            "analyse",
            text.as_bytes(),
            *status,
            report.as_bytes(),
        )?;
        assert!(rt; replied, "{name}");
    }
    Ok(())
}

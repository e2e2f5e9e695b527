//! Networks of the whole language, each in its canonical layout.

pub(crate) const ALL: [&str; 11] = [
    PAIR, PAIR2, WIRE, PUZZLE, TWINS, EARLY, ONCE, LATE, RING, STOP, OFFICE,
];

pub(crate) const PAIR: &str = "network pair;
type Addr = {a, b};
field src : Addr;
field dst : Addr;
middlebox firewall {
  port in_side, out_side;
  relation trusted(Addr);
  on in_side : {
    insert trusted(dst);
    output out_side;
  }
  on out_side : {
    if has trusted(src) -> {
      output in_side;
    } fi
  }
}
host ha;
host hb;
box fw : firewall;
link ha -- fw.in_side;
link hb -- fw.out_side;
sends ha : src = a, dst = a;
sends hb : src = b;
forbid ha : src = b;
";

pub(crate) const PAIR2: &str = "network pair;
type Addr = {a, b};
field src : Addr;
field dst : Addr;
middlebox firewall {
  port in_side, out_side;
  relation trusted(Addr);
  on in_side : {
    insert trusted(dst);
    output out_side;
  }
  on out_side : {
    if has trusted(src) -> {
      output in_side;
    } fi
  }
}
host ha;
host hb;
box fw : firewall;
link ha -- fw.in_side;
link hb -- fw.out_side;
sends ha : src = a, dst = b;
sends hb : src = b;
forbid ha : src = b;
";

pub(crate) const WIRE: &str = "network wire;
type Addr = {a, b};
field src : Addr;
field dst : Addr;
host p;
host q;
link p -- q;
sends p : src = a;
forbid q : src = a, dst = b;
";

pub(crate) const PUZZLE: &str = "network puzzle;
type V = {v1, v2, v3, v4};
field f : V;
field g : V;
middlebox lock {
  port inp, outp;
  relation r(V);
  on inp : {
    if f = v4 -> {
      insert r(v1);
      remove r(v2);
    } | f = v1 and g = v1 and not has r(f) -> {
      insert r(v2);
    } | f = v1 and g = v4 and has r(f) -> {
      insert r(v3);
    } | f = v2 and g = v3 and has r(f) and has r(g) -> {
      output outp;
    } fi
  }
}
host x;
host y;
box k : lock;
link x -- k.inp;
link y -- k.outp;
sends x : true;
forbid y : true;
";

pub(crate) const TWINS: &str = "network twins;
type Addr = {a, b};
field src : Addr;
field dst : Addr;
middlebox m {
  port i, o;
  relation r(Addr);
  on i : {
    if has r(src) and has r(dst) -> {
      output o;
    } fi
    insert r(src);
  }
}
host h;
host k;
box n : m;
link h -- n.i;
link k -- n.o;
sends h : src = a, dst = a;
";

pub(crate) const EARLY: &str = "network early;
type Addr = {a, b};
field src : Addr;
field dst : Addr;
middlebox m {
  port i, o;
  relation r(Addr);
  on i : {
    insert r(src);
    if has r(src) -> {
      output o;
    } fi
  }
}
host h;
host k;
box n : m;
link h -- n.i;
link k -- n.o;
sends h : src = a, dst = a;
";

pub(crate) const ONCE: &str = "network once;
type Addr = {a, b};
field src : Addr;
middlebox gate {
  port i, o;
  relation trusted(Addr);
  on i : {
    if has trusted(src) -> {
      output o;
      remove trusted(src);
    } fi
  }
}
host h;
host k;
box g : gate with trusted(b);
link h -- g.i;
link k -- g.o;
sends h : src = b;
";

pub(crate) const LATE: &str = "network late;
type Addr = {a, b};
field src : Addr;
middlebox gate {
  port i, o;
  relation trusted(Addr);
  on i : {
    if has trusted(src) -> {
      output o;
      remove trusted(src);
    } fi
  }
}
host h;
host k;
box g : gate with trusted(b);
link h -- g.i;
sends h : src = b;
forbid k : true;
";

pub(crate) const RING: &str = "network ring;
type Addr = {a};
field src : Addr;
middlebox relay {
  port i, n, p;
  on i : {
    output n;
  }
  on p : {
    output n;
  }
}
host h;
box x : relay;
box y : relay;
link h -- x.i;
link x.n -- y.p;
link y.n -- x.p;
sends h : true;
";

pub(crate) const STOP: &str = "network stop;
type Addr = {a, b};
field src : Addr;
field dst : Addr;
middlebox firewall {
  port in_side, out_side;
  relation trusted(Addr);
  on in_side : {
    insert trusted(dst);
  }
  on out_side : {
    if has trusted(src) -> {
      abort;
    } fi
  }
}
host ha;
host hb;
box fw : firewall;
link ha -- fw.in_side;
link hb -- fw.out_side;
sends ha : src = a, dst = b;
sends hb : src = b, dst = b;
";

pub(crate) const OFFICE: &str = "network office;
type Addr = {a, b, s};
type Kind = {req, rep};
field src : Addr;
field dst : Addr;
field kind : Kind;
middlebox acl {
  port lan, wan;
  relation allowed(Addr, Addr);
  on lan : {
    if has allowed(src, dst) -> {
      output wan;
    } fi
  }
  on wan : {
    if has allowed(dst, src) -> {
      output lan;
    } fi
  }
}
middlebox cache {
  port pa, pb, up;
  relation stored(Addr);
  on pa : {
    if kind = req and has stored(dst) -> {
      output pa [src := dst, dst := src, kind := rep];
    } | kind = req and not has stored(dst) -> {
      output up;
    } fi
  }
  on pb : {
    if kind = req and has stored(dst) -> {
      output pb [src := dst, dst := src, kind := rep];
    } | kind = req and not has stored(dst) -> {
      output up;
    } fi
  }
  on up : {
    if kind = rep -> {
      insert stored(src);
      if dst = a -> {
        output pa;
      } | dst = b -> {
        output pb;
      } fi
    } fi
  }
}
host ha;
host hb;
host srv;
box c : cache;
box fw : acl with allowed(a, s);
link ha -- c.pa;
link hb -- c.pb;
link c.up -- fw.lan;
link fw.wan -- srv;
sends ha : src = a, dst = s, kind = req;
sends hb : src = b, dst = s, kind = req;
sends srv : src = s, kind = rep;
forbid hb : src = s;
";

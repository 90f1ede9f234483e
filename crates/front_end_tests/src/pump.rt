// A file as a preprocessor writes it, and its tokens: kind, text, line and file of each.

pub const FILE: &[u8] = b"# 0 \"pump.c\"
# 0 \"<built-in>\"
# 1 \"pump.c\"
# 1 \"/usr/include/stdint.h\" 1 3 4
typedef unsigned char __uint8_t;
typedef unsigned short int __uint16_t;
typedef __uint8_t uint8_t;
typedef __uint16_t uint16_t;
# 4 \"pump.c\" 2
extern uint16_t read_level(void);
enum mode { IDLE, FILL, STOP };
struct pump { enum mode mode; uint8_t ticks; };
static struct pump pump;
static const uint16_t limit[3] = { 100, 800, 1000 };
static int over(uint16_t v) { return v > limit[pump.mode]; }
void init(void) { pump.mode = IDLE; pump.ticks = 0; }
void step(void) {
  uint16_t v = read_level();
  switch (pump.mode) {
  case IDLE: if (v < 100) pump.mode = FILL; break;
  case FILL: if (over(v)) pump.mode = STOP; break;
  default: break;
  }
  pump.ticks++;
}
int ratio(uint8_t d) { return 1000 / (d - pump.ticks); }
";

pub const TOKENS: &str = "K typedef 1 /usr/include/stdint.h
K unsigned 1 /usr/include/stdint.h
K char 1 /usr/include/stdint.h
N __uint8_t 1 /usr/include/stdint.h
P ; 1 /usr/include/stdint.h
K typedef 2 /usr/include/stdint.h
K unsigned 2 /usr/include/stdint.h
K short 2 /usr/include/stdint.h
K int 2 /usr/include/stdint.h
N __uint16_t 2 /usr/include/stdint.h
P ; 2 /usr/include/stdint.h
K typedef 3 /usr/include/stdint.h
N __uint8_t 3 /usr/include/stdint.h
N uint8_t 3 /usr/include/stdint.h
P ; 3 /usr/include/stdint.h
K typedef 4 /usr/include/stdint.h
N __uint16_t 4 /usr/include/stdint.h
N uint16_t 4 /usr/include/stdint.h
P ; 4 /usr/include/stdint.h
K extern 4 pump.c
N uint16_t 4 pump.c
N read_level 4 pump.c
P ( 4 pump.c
K void 4 pump.c
P ) 4 pump.c
P ; 4 pump.c
K enum 5 pump.c
N mode 5 pump.c
P { 5 pump.c
N IDLE 5 pump.c
P , 5 pump.c
N FILL 5 pump.c
P , 5 pump.c
N STOP 5 pump.c
P } 5 pump.c
P ; 5 pump.c
K struct 6 pump.c
N pump 6 pump.c
P { 6 pump.c
K enum 6 pump.c
N mode 6 pump.c
N mode 6 pump.c
P ; 6 pump.c
N uint8_t 6 pump.c
N ticks 6 pump.c
P ; 6 pump.c
P } 6 pump.c
P ; 6 pump.c
K static 7 pump.c
K struct 7 pump.c
N pump 7 pump.c
N pump 7 pump.c
P ; 7 pump.c
K static 8 pump.c
K const 8 pump.c
N uint16_t 8 pump.c
N limit 8 pump.c
P [ 8 pump.c
I 3 8 pump.c
P ] 8 pump.c
P = 8 pump.c
P { 8 pump.c
I 100 8 pump.c
P , 8 pump.c
I 800 8 pump.c
P , 8 pump.c
I 1000 8 pump.c
P } 8 pump.c
P ; 8 pump.c
K static 9 pump.c
K int 9 pump.c
N over 9 pump.c
P ( 9 pump.c
N uint16_t 9 pump.c
N v 9 pump.c
P ) 9 pump.c
P { 9 pump.c
K return 9 pump.c
N v 9 pump.c
P > 9 pump.c
N limit 9 pump.c
P [ 9 pump.c
N pump 9 pump.c
P . 9 pump.c
N mode 9 pump.c
P ] 9 pump.c
P ; 9 pump.c
P } 9 pump.c
K void 10 pump.c
N init 10 pump.c
P ( 10 pump.c
K void 10 pump.c
P ) 10 pump.c
P { 10 pump.c
N pump 10 pump.c
P . 10 pump.c
N mode 10 pump.c
P = 10 pump.c
N IDLE 10 pump.c
P ; 10 pump.c
N pump 10 pump.c
P . 10 pump.c
N ticks 10 pump.c
P = 10 pump.c
I 0 10 pump.c
P ; 10 pump.c
P } 10 pump.c
K void 11 pump.c
N step 11 pump.c
P ( 11 pump.c
K void 11 pump.c
P ) 11 pump.c
P { 11 pump.c
N uint16_t 12 pump.c
N v 12 pump.c
P = 12 pump.c
N read_level 12 pump.c
P ( 12 pump.c
P ) 12 pump.c
P ; 12 pump.c
K switch 13 pump.c
P ( 13 pump.c
N pump 13 pump.c
P . 13 pump.c
N mode 13 pump.c
P ) 13 pump.c
P { 13 pump.c
K case 14 pump.c
N IDLE 14 pump.c
P : 14 pump.c
K if 14 pump.c
P ( 14 pump.c
N v 14 pump.c
P < 14 pump.c
I 100 14 pump.c
P ) 14 pump.c
N pump 14 pump.c
P . 14 pump.c
N mode 14 pump.c
P = 14 pump.c
N FILL 14 pump.c
P ; 14 pump.c
K break 14 pump.c
P ; 14 pump.c
K case 15 pump.c
N FILL 15 pump.c
P : 15 pump.c
K if 15 pump.c
P ( 15 pump.c
N over 15 pump.c
P ( 15 pump.c
N v 15 pump.c
P ) 15 pump.c
P ) 15 pump.c
N pump 15 pump.c
P . 15 pump.c
N mode 15 pump.c
P = 15 pump.c
N STOP 15 pump.c
P ; 15 pump.c
K break 15 pump.c
P ; 15 pump.c
K default 16 pump.c
P : 16 pump.c
K break 16 pump.c
P ; 16 pump.c
P } 17 pump.c
N pump 18 pump.c
P . 18 pump.c
N ticks 18 pump.c
P ++ 18 pump.c
P ; 18 pump.c
P } 19 pump.c
K int 20 pump.c
N ratio 20 pump.c
P ( 20 pump.c
N uint8_t 20 pump.c
N d 20 pump.c
P ) 20 pump.c
P { 20 pump.c
K return 20 pump.c
I 1000 20 pump.c
P / 20 pump.c
P ( 20 pump.c
N d 20 pump.c
P - 20 pump.c
N pump 20 pump.c
P . 20 pump.c
N ticks 20 pump.c
P ) 20 pump.c
P ; 20 pump.c
P } 20 pump.c
";
